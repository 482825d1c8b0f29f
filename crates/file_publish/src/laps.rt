//! The next lap of the log, as a step of the World.
//!
//! Laws alone, no code. The layer above may rely on this: where log lines are at home, no job is
//! out and no run is kept of any file, K-Split and the World stand together in the same state once
//! the staging files gave up their blocks and the log base rose (`StandsLapped`). Where the power
//! goes on the way, each image is kept (`KeepsLapped`).

ghost use Rattle.file_publish.specs.LapsLaws.{KeepsLapped, StandsLapped};

/// The next lap begins with nothing staged: they stand together in it, and where the power goes on
/// the way, each image is kept.
pub fn the_next_lap_begins()
    ensures done { StandsLapped }
    ensures cut { KeepsLapped }
{}

pub use crate::standing::{
    Commit, FileTable, KSplit, gather, publish_runs, what_stands_may_be_gathered,
    what_stands_may_be_published,
};
