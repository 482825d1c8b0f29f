//! The entries that a file has applied count anew.
ghost use Rattle.std.specs.Prelude.{◌≡◌, [], true, false, None};
ghost use Rattle.block_io.specs.pm_model.Images.{Follows};
ghost use Rattle.block_io.specs.pm_model.Powers.{is_on, Steps};
ghost use Rattle.k_map_plans.specs.Plans.{IsLiveFile};
ghost use Rattle.k_split.specs.Answers.{IsPaid};
ghost use Rattle.k_split.specs.Gathers.{IsGatherReset};
ghost use Rattle.k_split.specs.Resets.{IsResetAnswer, KeepsUnloggedContent};

use crate::changes::land_change;
use crate::faults::KFault;
use crate::state::KSplit;
use k_map_plans::plan_reset;
use pm_lines::Power;
use std::alloc::Global;

impl KSplit {
    /// A file has applied no entry of the log: its `applied` becomes 0, as one transaction, and
    /// nothing else changes. It is for a log without a valid entry, since one that was applied would
    /// come to life again; then each image has the content of the image before.
    ///
    /// # Errors
    ///
    /// `PowerLost` and `NoMemory` alone, as [`KFault`] says.
    ///
    /// # Steps
    ///
    /// At most 256, as [`KFault`] says.
    pub fn reset_applied(
        &mut self,
        alloc: Global,
        ino: u32,
        power: &mut Power,
    ) -> Result<(), KFault>
        requires awake { self.old.lost ≡ true → is_on power.old ≡ false }
        requires file { self.old.lost ≡ false → IsLiveFile ino self.old.volume }
        ensures steps { self.old.batched ≡ false → Steps 256 power.old power.new }
        ensures most { Steps 4112 power.old power.new }
        ensures paid { self.old.batched ≡ false
            → IsPaid None power.old power.new result }
        ensures answer { self.old.batched ≡ false
            → IsResetAnswer ino self.old self.new result }
        ensures gathers { self.old.batched ≡ true
            → IsGatherReset ino self.old self.new result }
        ensures content { self.old.lines ≡ [] → Follows (KeepsUnloggedContent self.old.volume)
            self.old.cells self.new.cells }
    {
        if !power.on() {
            self.lost = true;
            return Err(KFault::PowerLost);
        }
        match plan_reset(alloc, &mut self.tables, &mut self.batch, ino) {
            Err(_) => Err(KFault::NoMemory),
            Ok(()) => {
                land_change(
                    self.batched,
                    &mut self.group,
                    &mut self.batch,
                    &mut self.pm,
                    &mut self.tables,
                    &mut self.lost,
                    power,
                )
            }
        }
    }
}
