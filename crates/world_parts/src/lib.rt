//! The parts of a World: all that it keeps between two of its calls, and what its calls answer.
//!
//! `Parts` has K-Split, the open files, what is staged, the scripts, the history, the jobs that are out, and how the
//! round stands. `seen` is their view, the World that the laws speak of, and `IsKept` what holds of them while the World
//! is usable: all stands together in the state of the history, the calls are counted, and there is room for what the ends
//! of jobs add, so that these take no memory. The layers above may rely on this: the next call of a caller is added with
//! its item (`IsAdded`); the power may go at any time, and all is kept (`lose`; `lose_one`, where that is one act); a call
//! waits exactly where its file is busy (`busy_on`), and a caller may begin its next call where `ready_of` says so
//! (`IsReady`). What each call of a World answers and leaves is said here (`Answers`), since the crates that do their parts
//! share it.
//!
//! Lines that come home after a loss are kept (`home`). There is always room for one unfinished call more.
//!
//! Stands on `world_view_laws` (the view, what a World keeps, and the laws of a job's end).
#![tactic(auto)]

mod looks;
mod losses;
mod outcomes;
mod parts;

pub use looks::{busy_on, ready_of};
pub use losses::{lose, lose_one};
pub use outcomes::{Begun, Crashed, Ended, Finished, Ready, Unfinished};
pub use parts::{Parts, add};
pub use world_view_laws::{
    Commit, FileTable, Filled, FilledJob, Full, Job, JobOut, KSplit, NoMemory, OpenFiles, Over,
    Told, call_at, calls_made, finish_write, finished_writes_end_with_their_files, fsync, gather,
    give_up_write, move_by, place_front, place_of, put_lines, run_call, settle_blocks, take_job,
    waits_for, what_stands_may_be_published,
};
