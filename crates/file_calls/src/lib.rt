//! The file calls that put no bytes, over K-Split, the open files and what is kept of files.
//!
//! `run_call` gives the outcome of the step beside writes of others in flight; or the power went
//! and each image is kept; or memory ran out and all is as before. `mkdir`, `rmdir`, `dup` and the
//! calls that look also say what they leave in POSIX mode, over a K-Split whose changes gather.
//!
//! - `names`: The file calls on names and descriptors, over K-Split, the open files and what is
//!   kept of files.
//! - `calls`: Each file call that puts no bytes, over K-Split, the open files and what is kept of
//!   files.
//!
//! Reads and `seek` are no jobs and take no step. `fsync` is answered apart, so that K-Split and the table
//! are seen to stay. `open` with `t` is one `set_size`.
//!
//! Stands on `pm_lines`, `layout_model`, `posix_types`, `open_files`, `eof_laws`, `batch_laws`,
//! `live_step_laws` and `posix_tables`.
#![tactic(auto)]

mod calls;
mod names;

pub use calls::{fsync, pread, read, run_call, seek};
pub use eof_laws::{
    Commit, FilledJob, Geometry, Job, Staging, files_end_after_changes_of_maps,
    finished_writes_end_with_their_files, put_lines,
};
pub use names::{
    Collection, FileTable, KSplit, NoMemory, OpenFiles, Opened, Told, after_fault, answered, close,
    dup, list, mkdir, open, read_bytes, rename, rmdir, stat, unlink,
};
