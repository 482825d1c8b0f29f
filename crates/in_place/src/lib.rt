//! Bytes of a file put where they lie while writes are in flight: zeros between a file's end and a write behind it, and
//! what sync mode writes below a file's old end.
//!
//! `clear_gap` zeroes what lies behind the end of a file, in the end's own block; `fill_absent` gives blocks of zeros to the
//! blocks of a range that the file has neither in its map nor staged: no call sees a change by either. `put_in_place` writes
//! bytes of a call, each in the staged block that has it, else in the map's, and makes them durable. Wherever the power
//! goes, each image, with log lines and blocks put back, is kept.
//!
//! - `tails`: Zeros between the end of a file and a write behind it.
//! - `placing`: Holes get blocks, and bytes of a call are written where they lie.
//!
//! Stands on `live_step_laws`, `write_plan`, `fsync_relink`, `posix_laws`, `k_split_laws`, `k_split`, `k_journal`,
//! `file_overlay`, `extent_map` and `pm_lines`.
#![tactic(auto)]

mod placing;
mod tails;

pub use live_step_laws::{FilledJob, KSplit, StageRun, Staging, settle_blocks};
pub use placing::{Holes, fill_absent, present_blocks_are_found, put_in_place};
pub use tails::{
    Commit, FileTable, blocks_are_zeroed_in_flight, clear_gap, kept_numbers_are_those_of_the_state,
    room_by, the_end_of_a_file_is_cleaned_in_flight, truncate_row,
};
pub use write_plan::{OpenFiles, move_by};
