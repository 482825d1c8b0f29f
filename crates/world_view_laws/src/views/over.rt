//! What ends a round.
use write_end::Full;

/// Why a round is over.
#[derive(Clone, Copy, Debug, PartialEq, Eq)]
pub enum Over {
    /// A claim found no line left.
    Lap(Full),
    /// A write, or a `truncate` that lengthens, found too few blocks: how many it needs, and how many there are. Both
    /// count blocks.
    Space { need: u64, room: u64 },
}
