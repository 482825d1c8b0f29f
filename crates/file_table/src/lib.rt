//! What is kept of files beside their inodes: the runs that are staged of each, and its size by them.
//!
//! A `FileTable` has an `Overlay` and a size for each inode line; the lines of directories and those that
//! are free have no run and size 0. Beside them it keeps the sum of what the sizes hold in blocks, so that
//! no call has to look at all files to know the room. Contracts see runs and sizes line by line (`Files`).
//!
//! The layer above may rely on this: `held` is the sum over all sizes; a call that changes a file changes
//! its line alone (`ChangesFile`); `lay` takes no memory after `reserve`.
//!
//! Room for runs stays when a file is published or cut, so that a job that is out can lay its run.
//!
//! Stands on `file_overlay` and `block_counts`.
#![tactic(auto)]

mod table;

pub use table::FileTable;
