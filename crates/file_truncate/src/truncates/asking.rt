//! How a `truncate` goes, by numbers.
ghost use Rattle.std.specs.Prelude.{◌≡◌, ◌≤◌};
ghost use Rattle.file_truncate.specs.Truncates.{IsAsked, IsBeside, lacking_by};

use in_place::truncate_row;
use posix_tables::room::growth;
use posix_types::Outcome;

/// How it goes.
#[derive(Drop)]
pub(crate) enum Asked {
    /// A row fits, which answers it.
    Answered(Outcome),
    /// No row fits, but the writes that are out leave less than it takes: the blocks that it takes, and
    /// those that are left.
    Full { need: u64, left: u64 },
    /// It goes on.
    Goes,
}

// Whether the writes that are out leave room for one that no row refuses.
fn beside(size: u64, old: u64, room: u64, needs: u64) -> Asked
    ensures { IsBeside size old room needs result }
{
    let need = growth(old, size);
    let left = room.saturating_sub(needs);
    if left < need {
        Asked::Full { need, left }
    } else {
        Asked::Goes
    }
}

// How a `truncate` to so many bytes goes, of a file that has `old` bytes, with so much room, beside
// writes that need `needs` blocks together.
pub(crate) fn ask(may: bool, size: u64, old: u64, room: u64, needs: u64) -> Asked
    ensures { IsAsked may size old room needs result }
{
    match truncate_row(may, size, old, room) {
        Some(outcome) => Asked::Answered(outcome),
        None => beside(size, old, room, needs),
    }
}

// The blocks that it takes, and those that are left, where these are too few.
pub(crate) fn lacking(asked: Asked) -> Option<(u64, u64)>
    ensures { result ≡ lacking_by asked }
{
    match asked {
        Asked::Full { need, left } => Some((need, left)),
        Asked::Answered(_) => None,
        Asked::Goes => None,
    }
}
