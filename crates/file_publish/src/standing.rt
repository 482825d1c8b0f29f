//! What a World with writes in flight gives to the layers that publish.
//!
//! Lemmas alone. The layer above may rely on this: where K-Split, the staging, what is kept of
//! files and the jobs that are out stand together (`StandsAt`), what is staged of a file may be
//! published (`StandsToPublish`), and that of all files may be gathered (`StandsToGather`), whether
//! jobs are out or not: the runs of live entries are in staging files, apart from each other, none
//! of their words is lent, their orders rise, and enough blocks are free.

ghost use Rattle.file_publish.specs.StandingLaws.{StandsToGather, StandsToPublish};

/// What stands may be published.
pub fn what_stands_may_be_published()
    ensures { StandsToPublish }
{}

/// So may all that stands.
pub fn what_stands_may_be_gathered()
    ensures { StandsToGather }
{}

pub use log_checkpoint::{Commit, FileTable, KSplit, gather, publish_runs};
