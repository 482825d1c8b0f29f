//! Holes of a file get blocks that read zeros.
ghost use Rattle.std.specs.Prelude.{◌≡◌, ◌≤◌, ◌+◌, ◌*◌, ◌^◌, ◌∷◌, [], length, true, false, OnOk, OnErr};
ghost use Rattle.k_map_plans.specs.Plans.{IsLiveFile};
ghost use Rattle.block_io.specs.pm_model.Powers.{is_on, Steps};
ghost use Rattle.k_split.specs.Answers.{IsPaid};
ghost use Rattle.k_map_plans.specs.k_plans.View.{TablesView};
ghost use Rattle.k_split.specs.Filling.{fill_row, hole_count, IsFillAnswer, IsFillJoin, IsFillLanded, IsFillPlanOn};
ghost use Rattle.k_split.specs.Gathers.{IsGatherFill};
ghost use Rattle.k_split.specs.Order.{IsReady, IsSteady};

use crate::faults::KFault;
use crate::mapping::land_maps_change;
use crate::state::KSplit;
use block_io::zero_blocks;
use k_map_plans::{Batch, MapFault, NewMap, Tables, may_fill, plan_fill};
use pm_lines::{Pm, Power};
use std::alloc::Global;
use std::slice;

// Zeroes the blocks; then, with the power left, lands the change with its new map, or lets it join.
// It notes in `lost` that the power went.
fn land_filled(
    batched: bool,
    fresh: &[u32],
    map: &NewMap,
    group: &mut Batch,
    batch: &mut Batch,
    pm: &mut Pm,
    tables: &mut Tables,
    lost: &mut bool,
    power: &mut Power,
) -> Result<(), KFault>
    requires on { is_on power.old ≡ true }
    requires plan { (t : TablesView) × IsFillPlanOn fresh.now t tables.old (map.now ∷ [])
        group.old batch.old pm.old batched }
    ensures steps { Steps (2 ^ 15 + 32 * length group.old + (576 * length fresh.now + 1))
        power.old power.new }
    ensures few { batched ≡ false
        → Steps (2 ^ 15 + (576 * length fresh.now + 1)) power.old power.new }
    ensures landed { (t : TablesView)
        → IsFillPlanOn fresh.now t tables.old (map.now ∷ []) group.old batch.old pm.old batched
        → batched ≡ false → IsFillLanded fresh.now (map.now ∷ []) t.volume tables.old.volume
        pm.old pm.new power.old power.new result }
    ensures joined { (t : TablesView)
        → (plan : IsFillPlanOn fresh.now t tables.old (map.now ∷ [])
        group.old batch.old pm.old batched)
        → batched ≡ true → IsFillJoin fresh.now (map.now ∷ []) plan.planned.ready.committed
        t tables.old tables.new group.old batch.old group.new pm.old pm.new power.new result }
    ensures ready { (t : TablesView)
        → IsFillPlanOn fresh.now t tables.old (map.now ∷ []) group.old batch.old pm.old batched
        → OnOk result (IsReady tables.new group.new batch.new pm.new batched) }
    ensures steady { batched ≡ true → IsSteady tables.new.volume.geometry pm.new }
    ensures volume { tables.new.volume ≡ tables.old.volume }
    ensures none_aside { tables.new.aside ≡ [] }
    ensures same { OnOk result (lost.new ≡ lost.old) }
    ensures noted { OnErr result (lost.new ≡ true) }
{
    zero_blocks(pm, power, fresh);
    if !power.on() {
        tables.release();
        *lost = true;
        return Err(KFault::PowerLost);
    }
    land_maps_change(
        batched,
        slice::from_ref(map),
        group,
        batch,
        pm,
        tables,
        lost,
        power,
    )
}

impl KSplit {
    /// Gives the holes among `count` file blocks of a live file from block `first` on, which end by
    /// 4,096, the lowest free blocks in rising order, as one transaction; the new chain gets the next
    /// ones. The blocks are zeroed before, so that they read zeros wherever the file has them. Where
    /// there is no hole it does nothing.
    ///
    /// # Errors
    ///
    /// `Room` exactly where there is a hole and fewer blocks are free than the holes and the reserve
    /// less 2: `need` is this number, and `room` the free blocks. `NoMemory` and `PowerLost` come as
    /// [`KFault`] says, and no other fault.
    ///
    /// # Steps
    ///
    /// At most 2^15, and 1,024 a hole.
    pub fn fill_holes(
        &mut self,
        alloc: Global,
        ino: u32,
        first: u32,
        count: u32,
        power: &mut Power,
    ) -> Result<(), KFault>
        requires awake { self.old.lost ≡ true → is_on power.old ≡ false }
        requires file { self.old.lost ≡ false → IsLiveFile ino self.old.volume }
        requires range { first + count ≤ 4096 }
        ensures steps { self.old.batched ≡ false
            → Steps (2 ^ 15 + 1024 * hole_count ino first count self.old) power.old power.new }
        ensures most { Steps (2 ^ 15 + 4112 + 1024 * hole_count ino first count self.old)
            power.old power.new }
        ensures paid { self.old.batched ≡ false
            → IsPaid (fill_row ino first count self.old) power.old power.new result }
        ensures answer { self.old.batched ≡ false
            → IsFillAnswer ino first count self.old self.new result }
        ensures gathers { self.old.batched ≡ true
            → IsGatherFill ino first count self.old self.new result }
    {
        if !power.on() {
            self.lost = true;
            return Err(KFault::PowerLost);
        }
        match may_fill(&self.tables, ino, first, count) {
            Err(room) => return Err(KFault::Room(room)),
            Ok(false) => return Ok(()),
            Ok(true) => {}
        }
        let (fresh, map) = match plan_fill(
            alloc,
            &mut self.tables,
            &mut self.batch,
            ino,
            first,
            count,
        ) {
            Ok(planned) => planned,
            Err(MapFault::NoMemory) => return Err(KFault::NoMemory),
            Err(MapFault::Few) => unreachable!(),
        };
        land_filled(
            self.batched,
            &fresh,
            &map,
            &mut self.group,
            &mut self.batch,
            &mut self.pm,
            &mut self.tables,
            &mut self.lost,
            power,
        )
    }
}
