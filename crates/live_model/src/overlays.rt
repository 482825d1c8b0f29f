//! Overlays of files, beside the log.
//!
//! Lemmas alone. The overlay of a file has the runs of its live entries (`IsOverlayOf`). The layer above may
//! rely on this: each block of the file is the same by the overlay and by the log (`OverlayIsLog`), so a read
//! over the overlay gives the bytes of the state (`OverlayReadsFile`); an entry that is added is a run that is
//! laid (`LaysEntry`), and other files stay (`LaysBeside`).

ghost use Rattle.live_model.specs.OverlaysLaws.{LaysBeside, LaysEntry, NothingIsLaid, OverlayIsLog, OverlayReadsFile};

/// The overlay of a file says what the log says.
pub fn the_overlay_is_the_log()
    ensures blocks { OverlayIsLog }
    ensures bytes { OverlayReadsFile }
    ensures none { NothingIsLaid }
    ensures own { LaysEntry }
    ensures others { LaysBeside }
{}

pub use file_reads::{Collection, read_bytes};
pub use write_jobs::{Filled, FilledJob, Job, StagedBytes};
