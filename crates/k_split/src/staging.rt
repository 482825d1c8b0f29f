//! The blocks of staging files: they get them, and give them up.
ghost use Rattle.std.specs.Prelude.{◌≡◌, ◌≤◌, ◌+◌, ◌^◌, [], true, false, None};
ghost use Rattle.block_io.specs.layout_model.Places.{reserve};
ghost use Rattle.block_io.specs.image_model.Volume.{extents};
ghost use Rattle.k_map_plans.specs.Plans.{IsStagingFile};
ghost use Rattle.block_io.specs.pm_model.Powers.{is_on, Steps};
ghost use Rattle.k_split.specs.Answers.{IsPaid};
ghost use Rattle.k_split.specs.Gathers.{IsGatherGiveUp, IsGatherPreallocate};
ghost use Rattle.k_split.specs.MapChanges.{IsGiveUpAnswer, IsPreallocateAnswer, IsStagedSingle, free_blocks_in};

use crate::faults::KFault;
use crate::mapping::land_maps_change;
use crate::state::KSplit;
use k_map_plans::{MapFault, plan_give_up, plan_preallocate};
use pm_lines::Power;
use std::alloc::Global;
use std::slice;

impl KSplit {
    /// Gives a staging file without blocks the `count` lowest free ones, from 1 to 64, in rising
    /// order, as one transaction; its chain gets the next ones. There are `count + reserve - 1`
    /// free blocks. The generation of the staging file rises by 1 modulo 2^32.
    ///
    /// # Errors
    ///
    /// `PowerLost` and `NoMemory` alone, as [`KFault`] says.
    ///
    /// # Steps
    ///
    /// At most 2^15, and 4,112 more where changes gather.
    pub fn preallocate(
        &mut self,
        alloc: Global,
        staging: u32,
        count: u32,
        power: &mut Power,
    ) -> Result<(), KFault>
        requires awake { self.old.lost ≡ true → is_on power.old ≡ false }
        requires staging { self.old.lost ≡ false → IsStagingFile staging self.old.volume }
        requires bare { self.old.lost ≡ false → extents self.old.volume staging ≡ [] }
        requires most { count ≤ 64 }
        requires room { self.old.lost ≡ false
            → count + reserve self.old.volume.geometry ≤ free_blocks_in self.old + 1 }
        ensures steps { self.old.batched ≡ false → Steps (2 ^ 15) power.old power.new }
        ensures most { Steps (2 ^ 15 + 4112) power.old power.new }
        ensures paid { self.old.batched ≡ false
            → IsPaid None power.old power.new result }
        ensures answer { self.old.batched ≡ false
            → IsPreallocateAnswer staging count self.old self.new result }
        ensures gathers { self.old.batched ≡ true
            → IsGatherPreallocate staging count self.old self.new result }
    {
        if !power.on() {
            self.lost = true;
            return Err(KFault::PowerLost);
        }
        let map = match plan_preallocate(alloc, &mut self.tables, &mut self.batch, staging, count) {
            Ok(map) => map,
            Err(MapFault::NoMemory) => return Err(KFault::NoMemory),
            Err(MapFault::Few) => unreachable!(),
        };
        land_maps_change(
            self.batched,
            slice::from_ref(&map),
            &mut self.group,
            &mut self.batch,
            &mut self.pm,
            &mut self.tables,
            &mut self.lost,
            power,
        )
    }

    /// Takes all its blocks from a staging file, as one transaction: they are free. Each of their
    /// words has one candidate, so that none is lent.
    ///
    /// # Errors
    ///
    /// `PowerLost` and `NoMemory` alone, as [`KFault`] says.
    ///
    /// # Steps
    ///
    /// At most 2^15, and 4,112 more where changes gather.
    pub fn give_up(&mut self, alloc: Global, staging: u32, power: &mut Power) -> Result<(), KFault>
        requires awake { self.old.lost ≡ true → is_on power.old ≡ false }
        requires staging { self.old.lost ≡ false → IsStagingFile staging self.old.volume }
        requires home { self.old.lost ≡ false
            → IsStagedSingle staging self.old.volume self.old.cells }
        ensures steps { self.old.batched ≡ false → Steps (2 ^ 15) power.old power.new }
        ensures most { Steps (2 ^ 15 + 4112) power.old power.new }
        ensures paid { self.old.batched ≡ false
            → IsPaid None power.old power.new result }
        ensures answer { self.old.batched ≡ false
            → IsGiveUpAnswer staging self.old self.new result }
        ensures gathers { self.old.batched ≡ true
            → IsGatherGiveUp staging self.old self.new result }
    {
        if !power.on() {
            self.lost = true;
            return Err(KFault::PowerLost);
        }
        let map = match plan_give_up(alloc, &mut self.tables, &mut self.batch, staging) {
            Ok(map) => map,
            Err(_) => return Err(KFault::NoMemory),
        };
        land_maps_change(
            self.batched,
            slice::from_ref(&map),
            &mut self.group,
            &mut self.batch,
            &mut self.pm,
            &mut self.tables,
            &mut self.lost,
            power,
        )
    }
}
