//! Laws of logged writes: they begin, land, finish, are given up and carried out, and find their free blocks.
//!
//! Each step of a job keeps the World valid beside any others; the first live entry of a file may
//! be relinked; staging files change where nothing of them is live; and free blocks suffice for all
//! of it.
//!
//! - `beside`: A file is written in place, or is anew, where no job is out.
//! - `holes`: Holes of a file get blocks that read zero.
//! - `jobs`: The steps of a logged write keep the World valid, and so do the end of a lap, resized
//!   files of which nothing is live, and bytes that are written in place.
//! - `runs`: What is staged is carried out: runs are relinked, and staging files are given up and
//!   filled anew.
//! - `room`: The arithmetic of free blocks: what is staged always finds the blocks to be carried
//!   out.
//!
//! Stands on `world_step_laws`.
#![tactic(auto)]

mod beside;
mod holes;
mod jobs;
mod room;
mod runs;

pub use beside::{files_are_renewed, files_are_written_beside};
pub use holes::holes_get_blocks;
pub use jobs::{files_are_changed, jobs_come_and_go};
pub use room::{changes_leave_free_blocks, jobs_leave_free_blocks, runs_find_free_blocks};
pub use runs::{runs_are_carried_out, staging_files_change};
