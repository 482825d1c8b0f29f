//! Nothing comes to lie past the end of a file where blocks go to it, or to a staging file.
//!
//! Lemmas alone, over the answers of K-Split and of the layers that publish. The layer above may
//! rely on this, while nothing lies past the end of a file (`FilesEnd`): so it is of an image that
//! is mounted, whose maps were cut; so it stays where the staged runs of a file are published, where
//! all that is staged is gathered, where a run of staging blocks is reserved, and where the run of
//! a finished write is laid, if its entry ends with the file (`DraftEnds`).

ghost use Rattle.eof_laws.specs.MapsLaws.{EndBegun, EndGathered, EndLaid, EndPublished, EndReserved};

/// Changes of maps leave no block past the end of a file.
pub fn files_end_after_changes_of_maps()
    ensures begun { EndBegun }
    ensures published { EndPublished }
    ensures gathered { EndGathered }
    ensures reserved { EndReserved }
    ensures laid { EndLaid }
{}

pub use crate::files::{Commit, FileTable};
pub use log_checkpoint::{KSplit, Staging};
