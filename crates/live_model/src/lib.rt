//! What the running World is: K-Split, open files, staging, overlays and writes in flight that stand together.
//!
//! `StandsAt` is the invariant of the code above, in strict mode; a file is read by its overlay and
//! its map as the log says, whatever is out.
//!
//! - `overlays`: Overlays of files, beside the log.
//! - `flights`: The World in flight: writes out over a device, and what is kept of files beside
//!   their inodes.
//! - `standing`: The World with writes in flight: its invariant over K-Split.
//!
//! `StandsAt` speaks of no free blocks for runs in flight, since a relink takes one while its run stays
//! out; the reserve says that they are free.
//!
//! Stands on `file_reads`, `write_jobs`, `open_files`, `staging_files`, `world_model` and
//! `file_table`.
#![tactic(auto)]

mod flights;
mod overlays;
mod standing;

pub use flights::flights_come_and_go;
pub use overlays::{
    Collection, Filled, FilledJob, Job, StagedBytes, read_bytes, the_overlay_is_the_log,
};
pub use standing::{
    Commit, FileTable, KSplit, StageFault, StageRun, Staging, put_lines, what_files_hold_is_the_sum,
};
pub use write_jobs::settle_blocks;
