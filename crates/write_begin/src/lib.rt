//! Where a write begins, in strict mode or sync mode: rows, holes, gap, staging, words and loans, until it is a job; or its
//! bytes in place, where nothing of it is staged.
//!
//! `begin_write` answers a row, a job with which the World stands together, that the write is written where it lies, or the
//! end of the round for want of space; where memory runs out no call sees a change.
//!
//! - `stages`: A logged write that has its staging blocks becomes a job.
//! - `begins`: The beginning of a write.
//!
//! Stands on `data_route`, `pm_lines`, `posix_types`, `posix_laws`, `live_step_laws`, `write_jobs`, `write_plan`,
//! `in_place`, `block_counts`, `posix_tables` and `in_place`.
#![tactic(auto)]

mod begins;
mod laws;
mod stages;

pub use begins::{WriteBegun, begin_write, jobs_need_what_their_calls_do, need_of};
pub use stages::{
    Asked, OpenFiles, Opened, StagedWrite, Target, ask, clear_gap,
    kept_numbers_are_those_of_the_state, numbers_are_those_of_the_state, stage_write,
};
