//! A checkpoint: all that is staged is published, and the log begins a new lap.
//!
//! `gather` goes over the inode lines and publishes each file that has one: its staged runs are relinked
//! and it gets its size, by one change of K-Split a run (`fsync_relink`). Then the staging files give up
//! their blocks, and the log's next lap begins.
//!
//! The layer above may rely on this: the answer is one clause by cases (`IsGatherAnswer`), each step one
//! of K-Split's own answers; done, the table has no run, nothing is staged, the log base rose by the
//! number of log lines, and K-Split goes on. Whatever happens, each image has the content of the image
//! before, where the log of that one holds the runs of all files (`KeepsLoggedContent`).
//!
//! At most 256 runs of at most 1,019 files are gathered, so at most 2^26 steps.
//!
//! Stands on `fsync_relink`, `file_table` and `staging_files`.
#![tactic(auto)]

mod gathering;
mod laws;
mod publishing;

pub use file_table::FileTable;
pub use fsync_relink::publish_runs;
pub use gathering::gather;
pub use staging_files::{Commit, Geometry, KSplit, Staging};
