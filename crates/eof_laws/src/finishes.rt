//! A write that finishes leaves nothing past the end of its file.
//!
//! Lemmas alone. The layer above may rely on this, of a World with writes in flight: the entry of a
//! write that is out leaves its file no shorter than it is (`LeavesNoShorter`); and where the entry
//! ends with the file (`DraftEnds`) and nothing lies past the end of a file, so it is once the write
//! is finished (`EndFinished`).

ghost use Rattle.eof_laws.specs.FinishesLaws.{EndFinished, LeavesNoShorter};

/// A finished write leaves nothing past the end of its file.
pub fn finished_writes_end_with_their_files()
    ensures longer { LeavesNoShorter }
    ensures finished { EndFinished }
{}

pub use crate::files::{Commit, FileTable, Geometry};
pub use live_model::{FilledJob, Job, KSplit, Staging, put_lines};
