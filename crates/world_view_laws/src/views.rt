//! What contracts see of a World with logged writes out, and what its calls leave.
//!
//! Definitions alone, and the enum of what ends a round. `Views` has the view of a World and all that it keeps
//! (`IsWorldOver`): while the power is on its parts stand together in the state of the history (`IsGoing`);
//! once it went, whatever is put back of lines and blocks leaves images that the mode permits (`IsLost`).
//! `Begins` says what `begin` and `ready` answer, `Jobs` how a job ends, `Rounds` what the ends of rounds and of
//! the run leave, `Losses` what a crash asks for, `Starts` how a World begins.
//!
//! `split_world`, whose contracts cite these, keeps a World; the crates of facts between them say how it goes
//! on.

mod over;

pub use file_calls::{NoMemory, Told, fsync, run_call};
pub use file_publish::{
    gather, log_lines_come_home, log_lines_go_out, what_stands_may_be_published,
};
pub use in_flight::{
    Commit, Counters, Filled, FilledJob, Job, JobOut, KSplit, OpenFiles, call_at, calls_made,
    count_call, keeper, next_in, no_calls, place_of, script_length, take_job, waits_for,
};
pub use over::Over;
pub use write_end::{
    Full, a_crash_keeps_the_promise, finish_write, give_up_write, move_by, place_front,
    publishing_leaves_what_is_out, settle_blocks,
};
