//! Taking names away.
ghost use Rattle.std.specs.Prelude.{◌≡◌, ◌≢◌, true, false, Err};
ghost use Rattle.block_io.specs.pm_model.Powers.{is_on, Steps};
ghost use Rattle.k_split.specs.Answers.{IsPaid, IsPowered};
ghost use Rattle.k_split.specs.Gathers.{IsGatherRmdir, IsGatherUnlink};
ghost use Rattle.k_split.specs.Names.{rmdir_row, unlink_row, IsRmdirAnswer, IsUnlinkAnswer};

use crate::changes::land_change;
use crate::faults::{KFault, fault_of};
use crate::state::KSplit;
use pm_lines::Power;
use posix_types::Path;

impl KSplit {
    /// Takes the name of a file away, as one transaction. It answers the file's inode, which stays
    /// until it is dropped. It takes no memory.
    ///
    /// # Errors
    ///
    /// As [`KFault`] says, by the rows of `unlink`; never `Room` or `NoMemory`.
    ///
    /// # Steps
    ///
    /// At most 256, as [`KFault`] says.
    pub fn unlink(&mut self, path: &Path, power: &mut Power) -> Result<u32, KFault>
        requires awake { self.old.lost ≡ true → is_on power.old ≡ false }
        ensures steps { self.old.batched ≡ false → Steps 256 power.old power.new }
        ensures most { Steps 4112 power.old power.new }
        ensures paid { self.old.batched ≡ false
            → IsPaid (unlink_row path.now self.old) power.old power.new result }
        ensures answer { self.old.batched ≡ false
            → IsUnlinkAnswer path.now self.old self.new result }
        ensures gathers { self.old.batched ≡ true
            → IsGatherUnlink path.now self.old self.new result }
        ensures memory { result ≢ Err KFault.NoMemory }
    {
        if !power.on() {
            self.lost = true;
            return Err(KFault::PowerLost);
        }
        match self.tables.unlink(&mut self.batch, path) {
            Err(fault) => Err(fault_of(fault)),
            Ok(ino) => {
                match land_change(
                    self.batched,
                    &mut self.group,
                    &mut self.batch,
                    &mut self.pm,
                    &mut self.tables,
                    &mut self.lost,
                    power,
                ) {
                    Ok(()) => Ok(ino),
                    Err(fault) => Err(fault),
                }
            }
        }
    }

    /// Takes a directory without entries away, with its name, as one transaction. It takes no
    /// memory.
    ///
    /// # Errors
    ///
    /// As [`KFault`] says, by the rows of `rmdir`; never `Room` or `NoMemory`.
    ///
    /// # Steps
    ///
    /// At most 256, as [`KFault`] says.
    pub fn rmdir(&mut self, path: &Path, power: &mut Power) -> Result<(), KFault>
        requires awake { self.old.lost ≡ true → is_on power.old ≡ false }
        ensures steps { self.old.batched ≡ false → Steps 256 power.old power.new }
        ensures most { Steps 4112 power.old power.new }
        ensures paid { self.old.batched ≡ false
            → IsPaid (rmdir_row path.now self.old) power.old power.new result }
        ensures powered { self.old.batched ≡ true → IsPowered power.new result }
        ensures answer { self.old.batched ≡ false
            → IsRmdirAnswer path.now self.old self.new result }
        ensures gathers { self.old.batched ≡ true
            → IsGatherRmdir path.now self.old self.new result }
        ensures memory { result ≢ Err KFault.NoMemory }
    {
        if !power.on() {
            self.lost = true;
            return Err(KFault::PowerLost);
        }
        match self.tables.rmdir(&mut self.batch, path) {
            Err(fault) => Err(fault_of(fault)),
            Ok(()) => {
                land_change(
                    self.batched,
                    &mut self.group,
                    &mut self.batch,
                    &mut self.pm,
                    &mut self.tables,
                    &mut self.lost,
                    power,
                )
            }
        }
    }
}
