//! What a staging keeps.
ghost use Rattle.std.specs.Prelude.{◌≡◌, ◌≤◌, ◌↔◌, IsTrue, length};
ghost use Rattle.staging_files.specs.GivesUp.{nothing_staged};
ghost use Rattle.staging_files.specs.Keeps.{IsStaged};

use crate::runs::StageRun;
use std::alloc::Global;
use std::marker::Model;

/// The runs that are out, and how many blocks each staging file was given. Contracts see a `Staged`.
#[derive(Drop)]
pub struct Staging {
    pub(crate) out: Vec<StageRun>,
    pub(crate) given: [u32; 4],
}

impl Model for Staging {
    ghost use Rattle.staging_files.specs.Keeps.{IsStaged, Staged};

    ghost Value = { Staged };

    ghost view = { λ s. record { out = s.out.items; given = s.given } };

    ghost invariant = { λ s. IsStaged (record { out = s.out.items; given = s.given }) };
}

impl Staging {
    /// No run is out, and all four staging files are kept as empty. It takes no memory.
    pub fn new(alloc: Global) -> Staging
        ensures { result ≡ nothing_staged }
    {
        Staging {
            out: Vec::new(alloc),
            given: [0; 4],
        }
    }

    /// How many runs are out: those reserved since `new` or the last `give_up_all`, but for those
    /// given back. At most 256 are, since each has a block of its own.
    pub fn owed(&self) -> u32
        ensures count { result ≡ length self.now.out }
        ensures few { result ≤ 256 }
        ensures keeps { IsStaged self.now }
    {
        self.out.len() as u32
    }

    /// Whether no run is out and all four staging files are kept as empty, as after `new` and `give_up_all`.
    pub fn is_fresh(&self) -> bool
        ensures { IsTrue result ↔ (self.now ≡ nothing_staged) }
    {
        self.out.is_empty()
            && self.given[0] == 0
            && self.given[1] == 0
            && self.given[2] == 0
            && self.given[3] == 0
    }
}
