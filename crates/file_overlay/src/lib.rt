//! Staged runs of a file: which staging block has a file block that was written and not published.
//!
//! A write stages whole blocks, a run of them one after the other in a staging file. An `Overlay` has
//! the runs of one file in the order in which they were laid. Contracts see this list and how much
//! room is spare (`Overlaid`), and read it block by block: `staged_at runs b` is the staging file and
//! the block in it that the last run laid there gives file block b.
//!
//! Beside the runs it keeps pieces: what the runs leave of each other, in the order of the file, no two
//! with one block. A look-up halves them, so it costs by the number's logarithm; a run that is laid goes
//! through them once. No clause shows the pieces.
//!
//! The layer above may rely on this: `find` is `staged_at`; a run that is laid hides the blocks of
//! older runs that it covers, and no other (`LaidHides`); where orders rise, the run that is found is
//! the one of greatest order that has the block (`LastIsGreatest`); `lay` takes no memory after
//! `reserve`.
//!
//! File blocks, staging blocks and their ends are below 2^32. It stands on `extent_model` (which
//! blocks a run has).
#![tactic(auto)]

ghost use Rattle.file_overlay.specs.Laws.{LaidHides, LastIsGreatest, NoneHasBlock};

mod overlay;
mod pieces;
mod runs;

pub use overlay::Overlay;
pub use runs::Run;

/// A run that is laid has its blocks, and each other block is found as before.
pub fn a_laid_run_hides_its_blocks()
    ensures { LaidHides }
{}

/// Where the orders rise, the last run laid over a block is the one of greatest order that has it.
pub fn the_last_run_has_the_greatest_order()
    ensures { LastIsGreatest }
{}

/// Where no last run is found, no run has the block.
pub fn no_run_has_a_block_that_is_not_found()
    ensures { NoneHasBlock }
{}
