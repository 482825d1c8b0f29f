//! A gathering as a step of the World: the checkpoint of the log.
//!
//! Laws alone, no code. The layer above may rely on this: where log lines are at home and no job is
//! out, K-Split and the World stand together in the same state once all files are published and the
//! next lap began (`StandsGathered`). Where the power goes in it, each image is kept
//! (`KeepsGathered`).

ghost use Rattle.file_publish.specs.GathersLaws.{KeepsGathered, StandsGathered};

use crate::laws;

/// All that is staged is gathered: they stand together behind it, and where the power goes in it,
/// each image is kept.
pub fn all_files_are_gathered()
    ensures done { StandsGathered }
    ensures cut { KeepsGathered }
{
    laws::what_stands_may_be_published();
    laws::a_file_is_published();
    laws::the_next_lap_begins();
}

pub use crate::relinks::what_stands_may_be_gathered;
