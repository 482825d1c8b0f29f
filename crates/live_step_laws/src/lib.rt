//! Laws of the running World's steps: jobs begin, runs are reserved, K-Split changes, all stands on.
//!
//! Each law has its done side (`StandsAt` again, in the next state) and its lost side (each image
//! kept, with the call as the last unfinished one).
//!
//! - `changes`: Changes of K-Split that write blocks, beside writes in flight.
//! - `steps`: Steps of K-Split beside a World with writes in flight: what stands together goes on
//!   to.
//! - `begins`: A job begins while others are in flight.
//! - `reserves`: A run of staging blocks is reserved while writes are in flight.
//! - `fills`: Holes of a file are filled while writes are in flight.
//!
//! Stands on `k_split_laws`, `live_model`, `fsync_relink` and `k_split`.
#![tactic(auto)]

mod begins;
mod changes;
mod fills;
mod reserves;
mod steps;

pub use begins::{FileTable, StageRun, a_job_begins_in_flight};
pub use changes::changes_that_write_spare_blocks;
pub use fills::{holes_are_filled_as_asked, holes_are_filled_in_flight};
pub use live_model::{FilledJob, settle_blocks};
pub use reserves::{StageFault, Staging, a_run_is_reserved_in_flight};
pub use steps::{Collection, KFault, KSplit, a_step_leaves_the_world_standing, read_bytes};
