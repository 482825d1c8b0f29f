//! Laws of rounds: how a round, and a whole run, begins and ends.
//!
//! Lines come home, all is gathered, the next lap begins; a mounted device begins a World with
//! nothing staged; what a run leaves keeps the promise. `table_of` alone is code: the sizes of all
//! files.
//!
//! - `acts`: Each call of a World within a round is one act of its caller, or none.
//! - `ends`: How a round of the World ends, and the whole run.
//! - `starts`: How a World begins on a device that is mounted.
//!
//! Stands on `file_publish`, `eof_laws`, `world_view_laws` and `log_replay`.
#![tactic(auto)]

mod acts;
mod ends;
mod starts;

pub use acts::a_call_is_an_act;
pub use ends::{
    a_checkpoint_ends_a_round, an_unmount_ends_a_run, log_lines_go_out,
    the_lines_of_a_round_come_home, the_lines_of_a_round_may_go_out,
};
pub use starts::{
    Commit, FilledJob, Full, Job, KSplit, MountFault, OpenFiles, Staging, a_remount_shows_the_same,
    a_world_begins, calls_made, mount, no_calls, script_length, table_of,
};
