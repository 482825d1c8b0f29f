//! Jobs: logged writes between their beginning and their end, and the blocks that they are lent.
//!
//! A `FilledJob` comes from `Job::fill` alone, each of its blocks whole and durable; blocks are
//! lent all or none, and put back whatever they hold; the laws say what that makes of the device.
//! `fill` takes no memory.
//!
//! - `jobs`: Jobs: logged writes between their beginning and their end.
//! - `job_laws`: Jobs on the device.
//! - `loans`: The blocks of a log entry, lent by K-Split all together, and taken back.
//!
//! Stands on `pm_lines`, `layout_model`, `posix_types`, `posix_tables`, `world_image_laws`,
//! `world_write_laws` and `k_split`.
#![tactic(auto)]

mod job_laws;
mod jobs;
mod loans;

pub use job_laws::jobs_come_and_go_on_the_device;
pub use jobs::{Filled, FilledJob, Job, StagedBytes};
pub use loans::{KSplit, lend_blocks, loans_are_put_back, settle_blocks};
