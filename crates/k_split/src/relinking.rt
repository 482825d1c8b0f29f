//! Blocks go from a staging file to a file, by their numbers in the two maps.
ghost use Rattle.std.specs.Prelude.{◌≡◌, ◌≤◌, ◌+◌, ◌^◌, [], true, false, None, IfSome};
ghost use Rattle.block_io.specs.image_model.Room.{unused_blocks};
ghost use Rattle.block_io.specs.layout_model.Places.{reserve};
ghost use Rattle.k_map_plans.specs.Plans.{MayMove};
ghost use Rattle.block_io.specs.pm_model.Powers.{is_on, Steps};
ghost use Rattle.k_split.specs.Answers.{IsPaid};
ghost use Rattle.k_split.specs.Gathers.{IsGatherRelink, WantsToRelink};
ghost use Rattle.k_split.specs.MapChanges.{IsMovedSingle, IsRelinkAnswer};

use crate::faults::KFault;
use crate::mapping::land_maps_change;
use crate::state::KSplit;
use block_io::Move;
use k_map_plans::{Commit, MapFault, plan_move};
use pm_lines::Power;
use std::alloc::Global;

impl KSplit {
    // Moves blocks with the blocks that are free, as `relink` says. `None` where these are too few and
    // others wait: then nothing is changed, and no step is taken.
    fn move_blocks(
        &mut self,
        alloc: Global,
        asked: &Move,
        power: &mut Power,
    ) -> Option<Result<(), KFault>>
        requires on { is_on power.old ≡ true }
        requires awake { self.old.lost ≡ false }
        requires may { MayMove asked.now self.old.volume }
        requires home { IsMovedSingle asked.now self.old.volume self.old.cells }
        requires room { reserve self.old.volume.geometry ≤ unused_blocks self.old.volume + 2 }
        ensures wants { result ≡ None → (self.new ≡ self.old) × (power.new ≡ power.old)
            × WantsToRelink asked.now self.old }
        ensures steps { self.old.lines ≡ [] → Steps (2 ^ 15) power.old power.new }
        ensures most { Steps (2 ^ 15 + 4096) power.old power.new }
        ensures paid { self.old.batched ≡ false
            → IfSome result (λ r. IsPaid None power.old power.new r) }
        ensures answer { self.old.batched ≡ false
            → IfSome result (λ r. IsRelinkAnswer asked.now self.old self.new r) }
        ensures gathers { self.old.batched ≡ true
            → IfSome result (λ r. IsGatherRelink asked.now self.old self.new r) }
    {
        let (file, staging) = match plan_move(alloc, &mut self.tables, &mut self.batch, asked) {
            Ok(maps) => maps,
            Err(MapFault::NoMemory) => return Some(Err(KFault::NoMemory)),
            Err(MapFault::Few) => return None,
        };
        let maps = [file, staging];
        Some(land_maps_change(
            self.batched,
            &maps,
            &mut self.group,
            &mut self.batch,
            &mut self.pm,
            &mut self.tables,
            &mut self.lost,
            power,
        ))
    }

    /// Moves blocks from a staging file to a file, with the file's size and the order of its last
    /// entry, as one transaction: no block is copied, and no word of one is written. What the file
    /// had in their place is free. Both maps are written anew, into the lowest free blocks.
    /// `reserve - 2` blocks are free or wait for a commit; where some that wait are wanted, all that
    /// gathers is committed before. Each word of the blocks has one candidate, so that none is lent.
    ///
    /// # Errors
    ///
    /// `PowerLost` and `NoMemory` alone, as [`KFault`] says.
    ///
    /// # Steps
    ///
    /// At most 2^15, and 4,112 more where changes gather.
    pub fn relink(&mut self, alloc: Global, asked: &Move, power: &mut Power) -> Result<(), KFault>
        requires awake { self.old.lost ≡ true → is_on power.old ≡ false }
        requires may { self.old.lost ≡ false → MayMove asked.now self.old.volume }
        requires home { self.old.lost ≡ false
            → IsMovedSingle asked.now self.old.volume self.old.cells }
        requires room { self.old.lost ≡ false
            → reserve self.old.volume.geometry ≤ unused_blocks self.old.volume + 2 }
        ensures steps { self.old.batched ≡ false → Steps (2 ^ 15) power.old power.new }
        ensures most { Steps (2 ^ 15 + 4112) power.old power.new }
        ensures paid { self.old.batched ≡ false
            → IsPaid None power.old power.new result }
        ensures answer { self.old.batched ≡ false
            → IsRelinkAnswer asked.now self.old self.new result }
        ensures gathers { self.old.batched ≡ true
            → IsGatherRelink asked.now self.old self.new result }
    {
        if !power.on() {
            self.lost = true;
            return Err(KFault::PowerLost);
        }
        match self.move_blocks(alloc, asked, power) {
            Some(result) => return result,
            None => {}
        }
        match self.commit(power) {
            Commit::PowerLost => Err(KFault::PowerLost),
            Commit::Done => match self.move_blocks(alloc, asked, power) {
                Some(result) => result,
                None => unreachable!(),
            },
        }
    }
}
