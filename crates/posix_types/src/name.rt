//! Names, lists of names, and paths.
ghost use Rattle.std.specs.Prelude.{◌≡◌, ◌↔◌, IsTrue, List, ℕ};
ghost use Rattle.std.specs.Cmp.Lexicographic.{lists_equiv, nat_list_eq_equiv};
ghost use Rattle.posix_types.specs.SameNames.{same_bytes, same_names};
ghost use Rattle.std.specs.Cmp.{partial_equiv_from_equiv};

use std::alloc::AllocError;
use std::marker::Model;

/// The name of a file or a directory in its directory. Contracts see its bytes.
#[derive(Debug, Drop)]
pub struct Name {
    pub bytes: Vec<u8>,
}

impl Model for Name {
    ghost Value = { List ℕ };

    ghost view = { λ name. name.bytes.items };
}

impl Clone for Name {
    ghost is_clone = { λ a b. b ≡ a };

    fn clone(&self) -> Result<Name, AllocError> {
        let bytes = self.bytes.clone()?;
        Ok(Name { bytes })
    }
}

impl PartialEq for Name {
    ghost eq = { same_bytes };

    ghost laws = { partial_equiv_from_equiv nat_list_eq_equiv };

    fn eq(&self, other: &Name) -> bool
        ensures value { result ≡ same_bytes self.now other.now }
        ensures exact { IsTrue result ↔ (self.now ≡ other.now) }
    {
        self.bytes == other.bytes
    }
}

impl Eq for Name {
    ghost laws = { nat_list_eq_equiv };
}

/// An absolute path: its names from the root down, none for the root. Contracts see a list of names.
#[derive(Debug, Drop)]
pub struct Path {
    pub names: Vec<Name>,
}

impl Model for Path {
    ghost Value = { List (List ℕ) };

    ghost view = { λ path. path.names.items };
}

impl Clone for Path {
    ghost is_clone = { λ a b. b ≡ a };

    fn clone(&self) -> Result<Path, AllocError> {
        let names = self.names.clone()?;
        Ok(Path { names })
    }
}

impl PartialEq for Path {
    ghost eq = { same_names };

    ghost laws = { partial_equiv_from_equiv (lists_equiv nat_list_eq_equiv) };

    fn eq(&self, other: &Path) -> bool
        ensures value { result ≡ same_names self.now other.now }
        ensures exact { IsTrue result ↔ (self.now ≡ other.now) }
    {
        self.names == other.names
    }
}

impl Eq for Path {
    ghost laws = { lists_equiv nat_list_eq_equiv };
}

/// The names that `list` answers, in the order of their bytes. Contracts see a list of names.
#[derive(Drop)]
pub struct NameList {
    pub names: Vec<Name>,
}

impl Model for NameList {
    ghost Value = { List (List ℕ) };

    ghost view = { λ list. list.names.items };
}

impl Clone for NameList {
    ghost is_clone = { λ a b. b ≡ a };

    fn clone(&self) -> Result<NameList, AllocError> {
        let names = self.names.clone()?;
        Ok(NameList { names })
    }
}

impl PartialEq for NameList {
    ghost eq = { same_names };

    ghost laws = { partial_equiv_from_equiv (lists_equiv nat_list_eq_equiv) };

    fn eq(&self, other: &NameList) -> bool
        ensures value { result ≡ same_names self.now other.now }
        ensures exact { IsTrue result ↔ (self.now ≡ other.now) }
    {
        self.names == other.names
    }
}

impl Eq for NameList {
    ghost laws = { lists_equiv nat_list_eq_equiv };
}
