//! Names of files.
ghost use Rattle.std.specs.Prelude.{◌≡◌, ◌↔◌, IsTrue, List, ℕ};
ghost use Rattle.std.specs.Cmp.Lexicographic.{nat_list_eq_equiv};
ghost use Rattle.std.specs.Cmp.{partial_equiv_from_equiv};
ghost use Rattle.script_text.specs.posix_spec.posix_types.SameNames.{same_bytes};

use std::marker::Model;

/// The name of a file. Contracts see its bytes.
#[derive(Debug, Drop)]
pub struct FileName {
    pub bytes: Vec<u8>,
}

impl Model for FileName {
    ghost Value = { List ℕ };

    ghost view = { λ name. name.bytes.items };
}

impl PartialEq for FileName {
    ghost eq = { same_bytes };

    ghost laws = { partial_equiv_from_equiv nat_list_eq_equiv };

    fn eq(&self, other: &FileName) -> bool
        ensures value { result ≡ same_bytes self.now other.now }
        ensures exact { IsTrue result ↔ (self.now ≡ other.now) }
    {
        self.bytes == other.bytes
    }
}

impl Eq for FileName {
    ghost laws = { nat_list_eq_equiv };
}
