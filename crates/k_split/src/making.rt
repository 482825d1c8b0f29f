//! Making a node.
ghost use Rattle.std.specs.Prelude.{◌≡◌, true, false};
ghost use Rattle.block_io.specs.pm_model.Powers.{is_on, Steps};
ghost use Rattle.k_map_plans.specs.layout_model.Spelling.{AreSpelled};
ghost use Rattle.k_split.specs.Answers.{IsPaid, IsPowered};
ghost use Rattle.k_split.specs.Gathers.{IsGatherMake};
ghost use Rattle.k_split.specs.Names.{make_row, IsMakeAnswer};

use crate::changes::land_change;
use crate::faults::{KFault, fault_of};
use crate::state::KSplit;
use pm_lines::Power;
use posix_types::Path;
use std::alloc::Global;

impl KSplit {
    /// Makes a directory or a file, with its name, as one transaction. It answers the inode: the
    /// lowest free one from 5 on, whose generation rises by 1 modulo 2^32; the name takes the
    /// lowest free name line. The path is spelled.
    ///
    /// # Errors
    ///
    /// As [`KFault`] says, by the rows of `mkdir`, for a file too: so a path that exists is refused
    /// with EEXIST.
    ///
    /// # Steps
    ///
    /// At most 256, as [`KFault`] says.
    pub fn make(
        &mut self,
        alloc: Global,
        path: &Path,
        directory: bool,
        power: &mut Power,
    ) -> Result<u32, KFault>
        requires spelled { AreSpelled path.now }
        requires awake { self.old.lost ≡ true → is_on power.old ≡ false }
        ensures steps { self.old.batched ≡ false → Steps 256 power.old power.new }
        ensures most { Steps 4112 power.old power.new }
        ensures paid { self.old.batched ≡ false
            → IsPaid (make_row path.now self.old) power.old power.new result }
        ensures powered { self.old.batched ≡ true → IsPowered power.new result }
        ensures answer { self.old.batched ≡ false
            → IsMakeAnswer directory path.now self.old self.new result }
        ensures gathers { self.old.batched ≡ true
            → IsGatherMake directory path.now self.old self.new result }
    {
        if !power.on() {
            self.lost = true;
            return Err(KFault::PowerLost);
        }
        match self.tables.make(alloc, &mut self.batch, path, directory) {
            Err(fault) => Err(fault_of(fault)),
            Ok(ino) => {
                match land_change(
                    self.batched,
                    &mut self.group,
                    &mut self.batch,
                    &mut self.pm,
                    &mut self.tables,
                    &mut self.lost,
                    power,
                ) {
                    Ok(()) => Ok(ino),
                    Err(fault) => Err(fault),
                }
            }
        }
    }
}
