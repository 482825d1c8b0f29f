//! Giving a node another path.
ghost use Rattle.std.specs.Prelude.{◌≡◌, true, false};
ghost use Rattle.block_io.specs.pm_model.Powers.{is_on, Steps};
ghost use Rattle.k_map_plans.specs.layout_model.Spelling.{AreSpelled};
ghost use Rattle.k_split.specs.Answers.{IsPaid};
ghost use Rattle.k_split.specs.Gathers.{IsGatherRename};
ghost use Rattle.k_split.specs.Names.{rename_row, IsRenameAnswer};

use crate::changes::land_change;
use crate::faults::{KFault, fault_of};
use crate::state::KSplit;
use pm_lines::Power;
use posix_types::Path;
use std::alloc::Global;

impl KSplit {
    /// Gives the node at a path another path, as one transaction. A file that stood there loses its
    /// name, and it answers that file; a directory without entries that stood there goes. Where
    /// both paths are those of one node it does nothing, and takes no step. The new path is
    /// spelled.
    ///
    /// # Errors
    ///
    /// As [`KFault`] says, by the rows of `rename`; never `Room`.
    ///
    /// # Steps
    ///
    /// At most 256, as [`KFault`] says, and none where both paths are those of one node.
    pub fn rename(
        &mut self,
        alloc: Global,
        path: &Path,
        to: &Path,
        power: &mut Power,
    ) -> Result<Option<u32>, KFault>
        requires spelled { AreSpelled to.now }
        requires awake { self.old.lost ≡ true → is_on power.old ≡ false }
        ensures steps { self.old.batched ≡ false → Steps 256 power.old power.new }
        ensures most { Steps 4112 power.old power.new }
        ensures paid { self.old.batched ≡ false
            → IsPaid (rename_row path.now to.now self.old) power.old power.new result }
        ensures answer { self.old.batched ≡ false
            → IsRenameAnswer path.now to.now self.old self.new result }
        ensures gathers { self.old.batched ≡ true
            → IsGatherRename path.now to.now self.old self.new result }
    {
        if !power.on() {
            self.lost = true;
            return Err(KFault::PowerLost);
        }
        match self.tables.rename(alloc, &mut self.batch, path, to) {
            Err(fault) => Err(fault_of(fault)),
            Ok(lost) => {
                if self.batch.is_empty() {
                    return Ok(lost);
                }
                match land_change(
                    self.batched,
                    &mut self.group,
                    &mut self.batch,
                    &mut self.pm,
                    &mut self.tables,
                    &mut self.lost,
                    power,
                ) {
                    Ok(()) => Ok(lost),
                    Err(fault) => Err(fault),
                }
            }
        }
    }
}
