//! Jobs: logged writes between their beginning and their end.
//!
//! A job has the blocks that its write stages, lent by the device, and the bytes from which the words come that they
//! are to hold (`StagedBytes`). `Job::fill` makes the words, block after block, stores them, flushes each line once and
//! fences each block; it takes no memory, and may run beside other jobs, since it touches its own blocks alone.
//!
//! The layer above may rely on this: a `FilledJob` comes from `fill` alone, and each of its blocks holds its
//! words, durable (`IsFilled`, `HoldWords`); a power loss gives the job back, with the same entry and the same
//! blocks (`IsCutOff`), exactly where the power is off at the return. At most 577 steps a block.
//! The words of `StagedBytes` are those of blocks with new bytes between old ones (`framed_bytes`).

mod contents;
mod fills;
mod jobs;

pub use contents::StagedBytes;
pub use fills::Filled;
pub use jobs::{FilledJob, Job};
