//! Relinks in flight: what is staged of a file is published while jobs of others are out.
//!
//! Laws alone, no code. The layer above may rely on this: where the first run of a file is
//! relinked, or all of them are, no job of the file out, K-Split and the World stand together in
//! the same state, with the same jobs, and so many runs less are kept of the file
//! (`StandsRelinked`, `StandsPublished`). Log lines may be out or at home. Where the power goes in
//! it, each image is kept, with the calls of the jobs unfinished (`KeepsPublished`,
//! `KeepsPublishedHome`).

ghost use Rattle.file_publish.specs.RelinksLaws.{
  KeepsPublished,
  KeepsPublishedHome,
  KeepsRelinked,
  KeepsRelinkedHome,
  StandsPublished,
  StandsRelinked,
};

/// The first run of a file is relinked: they stand together behind it; and where the power goes in
/// it, each image is kept.
pub fn the_first_run_is_relinked()
    ensures done { StandsRelinked }
    ensures cut { KeepsRelinked }
    ensures home { KeepsRelinkedHome }
{}

/// So it is where all runs of a file are relinked, one after the other.
pub fn a_file_is_published()
    ensures done { StandsPublished }
    ensures cut { KeepsPublished }
    ensures home { KeepsPublishedHome }
{}

pub use crate::laps::{
    Commit, FileTable, KSplit, publish_runs, the_next_lap_begins, what_stands_may_be_gathered,
    what_stands_may_be_published,
};
