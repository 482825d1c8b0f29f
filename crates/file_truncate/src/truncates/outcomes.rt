//! How a `truncate` ends.
use posix_types::Outcome;

/// How a `truncate` went.
#[derive(Drop)]
pub enum Truncated {
    /// It was answered: it is done, or a row refused it.
    Answered(Outcome),
    /// No row refuses it, but the writes that are out leave less room than it takes: the blocks that
    /// it takes, and those that are left. Nothing was done.
    RoundOver { need: u64, room: u64 },
    /// The power went.
    PowerLost,
}
