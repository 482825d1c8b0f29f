//! The entry of a logged write in strict mode.
//!
//! `draft_of` makes the entry that the log line of a write is to hold: its blocks, its run of staging
//! blocks, the size of the file behind it, and the next order of its file, which the runs that are laid
//! tell. The layer above may rely on this: where a World stands together, the entry is one that a line can
//! hold, it is live, and its order is one more than what its file has applied and the live entries it has
//! (`DraftsAreNext`); and what is kept of files says the sizes and the room of the state, so that `asks`
//! answers by the rows of the call (`StandsAsKept`, `RoomIsKept`).

ghost use Rattle.write_plan.specs.Drafts.{DraftsAreNext};
ghost use Rattle.write_plan.specs.Numbers.{OpenHaveLines, RoomIsKept, StandsAsKept};

use crate::laws;

mod drafts;

pub use drafts::draft_of;

/// Where a World stands together, entries are the next ones of their files.
pub fn entries_are_the_next_ones()
    ensures { DraftsAreNext }
{}

/// Where a World stands together, what is kept of files says the numbers of the state.
pub fn kept_numbers_are_those_of_the_state()
    ensures sizes { StandsAsKept }
    ensures lines { OpenHaveLines }
    ensures room { RoomIsKept }
{
    laws::what_files_hold_is_the_sum();
}

pub use crate::asks::{
    Asked, FileTable, OpenFiles, Opened, Target, ask, numbers_are_those_of_the_state, room_by,
    truncate_row,
};
pub use live_model::{Collection, Commit, Job, KSplit, StagedBytes, read_bytes};
