//! A logged write that has its staging blocks becomes a job.
//!
//! `stage_write` reads what the blocks hold of the file, puts the new bytes over it, makes the entry and lends
//! the blocks. The layer above may rely on this: where K-Split, the open files, the staging, what is kept of
//! files and the jobs that are out stand together and the write can be staged in its run (`Ready`), they
//! stand together with the job as the last one, in the same state, and the job has the entry, the blocks and
//! the words of the call (`IsStaged`, `IsJobOf`). Where memory runs out, nothing changed.

mod staging;

pub use in_place::clear_gap;
pub use staging::{StagedWrite, stage_write};
pub use write_plan::{
    Asked, OpenFiles, Opened, Target, ask, kept_numbers_are_those_of_the_state,
    numbers_are_those_of_the_state,
};
