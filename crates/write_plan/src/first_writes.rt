//! Room for the first write of a lap.
//!
//! Two lemmas. Once all that was staged is published and no block lies past the end of a file
//! (`FilesEnd`), the files have at most the blocks that the room counts for their sizes. The layer
//! above may rely on this: while nothing is staged, the holes of a file below its end can be filled
//! (`FirstHolesFit`); and a write that no row refuses for want of room finds enough free blocks, in
//! any mode, so that `reserve` does not lack them (`FirstWriteFits`). So after a checkpoint the first
//! write that begins goes on.

ghost use Rattle.write_plan.specs.FirstWritesLaws.{FirstHolesFit, FirstWriteFits};

use crate::laws;

/// While nothing is staged, a write that there is room for finds its blocks.
pub fn the_first_write_finds_its_blocks()
    ensures { FirstWriteFits }
{
    laws::what_files_hold_is_the_sum();
}

/// While nothing is staged, as many blocks are free as a file lacks below its end, and the reserve.
pub fn the_first_holes_find_their_blocks()
    ensures { FirstHolesFit }
{
    laws::what_files_hold_is_the_sum();
}

pub use crate::drafts::Job;
pub use eof_laws::{Commit, FileTable};
