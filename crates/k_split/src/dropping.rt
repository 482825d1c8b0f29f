//! Dropping a file that has no name.
ghost use Rattle.std.specs.Prelude.{◌≡◌, ◌≢◌, true, false, None, Err};
ghost use Rattle.block_io.specs.pm_model.Powers.{is_on, Steps};
ghost use Rattle.k_map_plans.specs.volume_change_laws.Changes.{MayDrop};
ghost use Rattle.k_split.specs.Answers.{IsPaid};
ghost use Rattle.k_split.specs.Gathers.{IsGatherDrop};
ghost use Rattle.k_split.specs.Names.{IsDropAnswer};

use crate::changes::land_change;
use crate::faults::KFault;
use crate::state::KSplit;
use pm_lines::Power;

impl KSplit {
    /// Drops a file that has no name, as one transaction: its inode is free and keeps its
    /// generation, and its blocks are free. It takes no memory, and only the power stops it.
    ///
    /// # Errors
    ///
    /// `PowerLost` alone, as [`KFault`] says.
    ///
    /// # Steps
    ///
    /// At most 256, as [`KFault`] says.
    pub fn drop_node(&mut self, ino: u32, power: &mut Power) -> Result<(), KFault>
        requires awake { self.old.lost ≡ true → is_on power.old ≡ false }
        requires may { self.old.lost ≡ false → MayDrop ino self.old.volume }
        ensures steps { self.old.batched ≡ false → Steps 256 power.old power.new }
        ensures most { Steps 4112 power.old power.new }
        ensures paid { self.old.batched ≡ false
            → IsPaid None power.old power.new result }
        ensures answer { self.old.batched ≡ false
            → IsDropAnswer ino self.old self.new result }
        ensures gathers { self.old.batched ≡ true
            → IsGatherDrop ino self.old self.new result }
        ensures memory { result ≢ Err KFault.NoMemory }
    {
        if !power.on() {
            self.lost = true;
            return Err(KFault::PowerLost);
        }
        self.tables.drop_node(&mut self.batch, ino);
        land_change(
            self.batched,
            &mut self.group,
            &mut self.batch,
            &mut self.pm,
            &mut self.tables,
            &mut self.lost,
            power,
        )
    }
}
