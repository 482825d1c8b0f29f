//! A job begins while others are in flight.
//!
//! Lemmas alone. The layer above may rely on this: where K-Split, the open files, the staging, what
//! is kept of files and the jobs that are out stand together, and a run is out for one more, a job
//! whose entry has that run begins, last of those that are out, as its blocks go out
//! (`StandsBegun`): they stand together with it in the same state.

ghost use Rattle.live_step_laws.specs.BeginsLaws.{StandsBegun};

/// A job begins in flight.
pub fn a_job_begins_in_flight()
    ensures { StandsBegun }
{}

pub use live_model::{Collection, FileTable, StageRun};
