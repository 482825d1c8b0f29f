//! What a write rests on, of any volume by which the calls see the files.
//!
//! Laws alone. They speak of a volume that shows the files, whatever the device is at: K-Split's, with the log
//! entries that are claimed, or that of a batch, with the lengths in memory and the staged runs as entries. The layer
//! above may rely on this: words of a write spell its file (`StagesWhatIsShown`), its entry is the next one
//! (`DraftsAreNextShown`), and while nothing is staged it finds its blocks (`FirstRunFits`, `FirstHolesAreUnused`).
//! The laws of a World that stands together are cases of these. And outside POSIX mode the bytes that a write puts in
//! the file's own blocks are those in place (`OwnIsPlaced`).

ghost use Rattle.write_plan.specs.Plans.{OwnIsPlaced};
ghost use Rattle.write_plan.specs.Shown.{DraftsAreNextShown, FirstHolesAreUnused, FirstRunFits, StagesWhatIsShown};

use crate::laws;

/// Words of a write spell the file that is shown.
pub fn words_spell_what_is_shown()
    ensures { StagesWhatIsShown }
{}

/// Entries are the next ones of the files that are shown.
pub fn entries_are_next_of_what_is_shown()
    ensures { DraftsAreNextShown }
{}

/// While nothing is staged, a write finds its blocks, and so do holes.
pub fn first_blocks_of_what_is_shown_are_found()
    ensures run { FirstRunFits }
    ensures holes { FirstHolesAreUnused }
{
    laws::what_files_hold_is_the_sum();
}

/// Outside POSIX mode a write puts in the file's own blocks what it writes in place.
pub fn own_bytes_are_those_in_place()
    ensures { OwnIsPlaced }
{}
