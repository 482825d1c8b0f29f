//! What contracts see of a World, and the laws of how it goes on, loses its power and ends its jobs.
//!
//! `Views`, `Begins`, `Jobs`, `Rounds` and `Losses` in specs/ are the definitions that
//! `split_world` answers by: read them first of all crates of laws.
//!
//! - `views`: What contracts see of a World with logged writes out, and what its calls leave.
//! - `turns`: How a World goes on, and how it loses its power.
//!
//! `Disk` shows what is free and what the staging keeps, since only these say why a round ends. Blocks that
//! came home after a loss stay (`HomesStay`).
//!
//! Stands on `file_calls`, `write_end`, `write_plan`, `file_publish`, `in_flight` and `eof_laws`.
#![tactic(auto)]

mod turns;
mod views;

pub use file_calls::files_end_after_changes_of_maps;
pub use file_publish::{all_files_are_gathered, publish_file, what_stands_may_be_gathered};
pub use turns::{
    FileTable, Geometry, Staging, finished_writes_end_with_their_files, jobs_that_ended_stay_home,
    put_lines, the_lines_turn_in_posix_mode, the_power_goes_in_posix_mode,
};
pub use views::{
    Commit, Counters, Filled, FilledJob, Full, Job, JobOut, KSplit, NoMemory, OpenFiles, Over,
    Told, a_crash_keeps_the_promise, call_at, calls_made, count_call, finish_write, fsync, gather,
    give_up_write, keeper, log_lines_come_home, log_lines_go_out, move_by, next_in, no_calls,
    place_front, place_of, publishing_leaves_what_is_out, run_call, script_length, settle_blocks,
    take_job, waits_for, what_stands_may_be_published,
};
