//! How jobs end and rounds go in a World: finish, give up, begin a round, checkpoint, unmount, crash.
//!
//! Each call is one definition of `world_view_laws` (`Finishes`, `GivesUp`, `IsRoundBegun`,
//! `IsCheckpoint`, `IsEnded`, `IsLeft`), with the power on or gone.
//!
//! - `job_ends`: A job of a World ends: it finishes, or is given up.
//! - `rounds`: The rounds of a World: they begin, end at a checkpoint or with the run, or with the
//!   power.
//!
//! Stands on `layout_model`, `posix_types`, `posix_tables`, `world_parts`, `pm_lines` and `round_laws`.
#![tactic(auto)]

mod job_ends;
mod laws;
mod rounds;

pub use job_ends::{
    Commit, Crashed, Ended, FileTable, FilledJob, Job, JobOut, NoMemory, Parts, Unfinished,
    finish_off, finish_on, gather, give_up_off, give_up_on, lose_one, put_lines,
};
pub use round_laws::{
    Full, KSplit, MountFault, OpenFiles, Staging, a_remount_shows_the_same, a_world_begins,
    calls_made, mount, no_calls, script_length, table_of,
};
pub use rounds::{an_unmount_ends_a_run, begin_lines, crash_lost, end_lines, end_run, keep_lines};
