//! Laws of the ends of files: no block of a file lies past its end, whatever is done.
//!
//! `FilesEnd` stays under every change of names, sizes and maps, when runs are laid or published,
//! and when a write finishes; so a file that grows shows zeros once its last block is clean.
//!
//! - `files`: Nothing of a file lies past its end.
//! - `maps`: Nothing comes to lie past the end of a file where blocks go to it, or to a staging
//!   file.
//! - `finishes`: A write that finishes leaves nothing past the end of its file.
//!
//! Stands on `file_table`, `k_plans`, `log_checkpoint` and `live_model`.
#![tactic(auto)]

mod files;
mod finishes;
mod maps;

pub use files::{Commit, FileTable, Geometry, files_end_after_changes};
pub use finishes::{FilledJob, Job, finished_writes_end_with_their_files, put_lines};
pub use maps::{KSplit, Staging, files_end_after_changes_of_maps};
