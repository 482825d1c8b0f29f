//! The World with writes in flight: its invariant over K-Split.
//!
//! Definitions alone. `StandsAt` says when K-Split, the open files, the staging files, what is kept
//! of files and the jobs that are out stand together in a state of the calls (strict mode);
//! `SpellCall` says which words the blocks of a job are to have.

pub use crate::flights::{Collection, Filled, FilledJob, Job, StagedBytes, read_bytes};
pub use file_table::FileTable;
pub use staging_files::{Commit, KSplit, StageFault, StageRun, Staging, put_lines};
pub use world_model::what_files_hold_is_the_sum;
