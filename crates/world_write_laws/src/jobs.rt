//! The steps of a logged write keep the World valid, and so do the end of a lap, resized files of which nothing
//! is live, and bytes that are written in place.
//!
//! Lemmas, and the small definitions that they speak of. The layer above may rely on this, with any other
//! jobs in flight: a job begins, is filled, lands with its claim, finishes with its call's effect (in sync
//! mode by bytes in place), or is given up; a lap ends; a file of which nothing is live is resized
//! (`Resizes`, `HasAlone`), as `truncate` and a cutting `open` ask; and bytes of a file that no job has are
//! written in place (`WritesInPlace`) where blocks are mapped; that holes of a file with live entries are
//! filled first, as sync and POSIX mode do, has no law here yet. `Laws` has the laws, each as one
//! statement; the files `..Steps` their proofs.

ghost use Rattle.world_write_laws.specs.JobsLaws.{KeepsBegun, KeepsCut, KeepsFilled, KeepsFinished, KeepsFinishedInPlace, KeepsGivenUp, KeepsInPlace, KeepsLanded, KeepsLap, KeepsTruncated};

/// A job begins, is filled, lands, finishes or is given up; and a lap ends.
pub fn jobs_come_and_go()
    ensures begun { KeepsBegun }
    ensures filled { KeepsFilled }
    ensures landed { KeepsLanded }
    ensures finished { KeepsFinished }
    ensures given_up { KeepsGivenUp }
    ensures lap { KeepsLap }
{}

/// Files are resized, and written in place.
pub fn files_are_changed()
    ensures truncated { KeepsTruncated }
    ensures cut { KeepsCut }
    ensures in_place { KeepsInPlace }
    ensures finished { KeepsFinishedInPlace }
{}
