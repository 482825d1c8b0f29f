//! Facts of the live entries of the log.
//!
//! Laws alone, no code. The layer above may rely on this: the live entries of a checked image are sound
//! (`AreSound`: their blocks are in staging files, no two share one, and no two of one file have one
//! order); a relink of the next one of a file carries it out (`CarriesOut`: just the others are live, as
//! sound as before, and the same files are shown); where nothing is live in a staging file that changes,
//! the same entries are live and the same files are shown; and volumes that show the same files have the
//! same at each path. The orders of a file may have gaps: nothing here asks that they go on one by one.

ghost use Rattle.log_laws.specs.LiveLaws.{AreSoundWhenChecked, CarriesOutRelinked, HaveSameFound, KeepsFilesRestaged};

/// The live entries of a checked image are sound, and a relink of the next one of a file carries it out.
pub fn the_next_entry_is_carried_out()
    ensures sound { AreSoundWhenChecked }
    ensures carried { CarriesOutRelinked }
{}

/// Where nothing is live in a staging file before and after it changes, the same entries are live.
pub fn staging_files_change_no_live_entry()
    ensures { KeepsFilesRestaged }
{}

/// Volumes that show the same files have the same at each path.
pub fn the_same_files_are_the_same_content()
    ensures { HaveSameFound }
{}
