//! What is wrong with an image.
ghost use Rattle.std.specs.Prelude.{◌≡◌};

use std::alloc::AllocError;
use thiserror::Error;

/// The first rule that an image breaks, and the lowest place at which it breaks it.
#[derive(Clone, Copy, Debug, PartialEq, Eq)]
pub struct BadImage {
    /// The rule's number, 1 to 13. The rules are tried in the order 1 2 3 4 11 5 6 7 8 9 10 12 13.
    pub rule: u32,
    /// What the rule is tried at: the length in bytes (rule 1), a record of the journal or 128 (11),
    /// an inode (5, 7, 10), a name line (6), a data block (8), a name line or their count (9), a
    /// slot of the log (13), and 0 elsewhere.
    pub place: u64,
}

/// Why no geometry is answered for an image.
#[derive(Clone, Copy, Debug, PartialEq, Eq, Error)]
pub enum CheckFault {
    /// A rule is broken.
    #[error("the image breaks rule {} at {}", .0.rule, .0.place)]
    Bad(BadImage),
    /// There is no memory for the tables.
    #[error("out of memory")]
    NoMemory,
}

impl From<AllocError> for CheckFault {
    ghost use Rattle.check_image.specs.declared.faults.CheckFault.TheVariants.{NoMemory};

    ghost from_gives = { λ _ fault. fault ≡ NoMemory };

    fn from(_: AllocError) -> CheckFault {
        CheckFault::NoMemory
    }
}
