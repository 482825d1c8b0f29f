//! Maps: what they are, the landing of a plan with new ones, and the size of a file.
ghost use Rattle.std.specs.Prelude.{◌≡◌, ◌<◌, ◌≤◌, ◌+◌, ◌*◌, ◌^◌, ◌↔◌, [], length, true, false, None, IfSome, IsSome, OnOk, OnErr};
ghost use Rattle.layout_model.specs.block_counts.declared.TheConstants.{LONGEST_FILE};
ghost use Rattle.block_io.specs.layout_model.Places.{reserve};
ghost use Rattle.block_io.specs.image_model.Room.{unused_blocks};
ghost use Rattle.block_io.specs.image_model.Volume.{Volume, extents};
ghost use Rattle.k_map_plans.specs.k_plans.LandingsPlans.{blocks_of};
ghost use Rattle.k_map_plans.specs.Plans.{IsLiveFile, listed};
ghost use Rattle.block_io.specs.pm_model.Powers.{is_on, Steps};
ghost use Rattle.k_split.specs.Answers.{IsPaid};
ghost use Rattle.k_map_plans.specs.k_plans.View.{TablesView};
ghost use Rattle.k_split.specs.Landed.{IsLandedJoin};
ghost use Rattle.k_split.specs.MapLanded.{IsMapPlanOn};
ghost use Rattle.k_split.specs.Order.{IsReady, IsSteady};
ghost use Rattle.k_split.specs.Gathers.{IsGatherSize, WantsToResize};
ghost use Rattle.k_split.specs.MapChanges.{IsMapLanded, IsMapPlanned, IsSizeAnswer, free_blocks_in};

use crate::faults::KFault;
use crate::state::KSplit;
use extent_map::ExtentMap;
use k_group_commit::gather;
use k_map_plans::{Batch, Commit, MapFault, NewMap, Tables, land_maps, plan_size};
use pm_lines::{Pm, Power};
use std::alloc::Global;
use std::slice;

// Writes the new maps and lands what is planned on the tables, and notes in `lost` that the power
// went.
pub(crate) fn land_maps_plan(
    maps: &[NewMap],
    batch: &mut Batch,
    pm: &mut Pm,
    tables: &Tables,
    lost: &mut bool,
    power: &mut Power,
) -> Result<(), KFault>
    requires { (v : Volume) × IsMapPlanned maps.now v tables.now.volume batch.old pm.old }
    ensures steps { Steps (2 ^ 15) power.old power.new }
    ensures landed { (v : Volume) → IsMapPlanned maps.now v tables.now.volume batch.old pm.old
        → IsMapLanded (blocks_of maps.now) v tables.now.volume pm.old pm.new
        power.old power.new result }
    ensures no_lines { OnOk result (batch.new ≡ []) }
    ensures same { OnOk result (lost.new ≡ lost.old) }
    ensures noted { OnErr result (lost.new ≡ true) }
{
    match land_maps(maps, batch, pm, tables.geometry(), power) {
        Commit::Done => Ok(()),
        Commit::PowerLost => {
            *lost = true;
            Err(KFault::PowerLost)
        }
    }
}

// A planned change with new maps: where changes do not gather, what it freed is free and it is
// landed; where they do, it joins those that gathered. It notes in `lost` that the power went.
pub(crate) fn land_maps_change(
    batched: bool,
    maps: &[NewMap],
    group: &mut Batch,
    batch: &mut Batch,
    pm: &mut Pm,
    tables: &mut Tables,
    lost: &mut bool,
    power: &mut Power,
) -> Result<(), KFault>
    requires on { is_on power.old ≡ true }
    requires plan { (t : TablesView)
        × IsMapPlanOn t tables.old maps.now group.old batch.old pm.old batched }
    ensures steps { Steps (2 ^ 15 + 32 * length group.old) power.old power.new }
    ensures most { Steps (2 ^ 15 + 4096) power.old power.new }
    ensures few { batched ≡ false → Steps (2 ^ 15) power.old power.new }
    ensures landed { (t : TablesView)
        → IsMapPlanOn t tables.old maps.now group.old batch.old pm.old batched
        → batched ≡ false → IsMapLanded (blocks_of maps.now) t.volume tables.old.volume
        pm.old pm.new power.old power.new result }
    ensures joined { (t : TablesView)
        → (plan : IsMapPlanOn t tables.old maps.now group.old batch.old pm.old batched)
        → batched ≡ true → IsLandedJoin plan.ready.committed t tables.old tables.new maps.now
        group.old batch.old group.new pm.old pm.new power.new result }
    ensures ready { (t : TablesView)
        → IsMapPlanOn t tables.old maps.now group.old batch.old pm.old batched
        → OnOk result (IsReady tables.new group.new batch.new pm.new batched) }
    ensures steady { batched ≡ true → IsSteady tables.new.volume.geometry pm.new }
    ensures volume { tables.new.volume ≡ tables.old.volume }
    ensures none_aside { tables.new.aside ≡ [] }
    ensures same { OnOk result (lost.new ≡ lost.old) }
    ensures noted { OnErr result (lost.new ≡ true) }
{
    if batched {
        match gather(maps, tables, group, batch, pm, power) {
            Commit::Done => Ok(()),
            Commit::PowerLost => {
                *lost = true;
                Err(KFault::PowerLost)
            }
        }
    } else {
        tables.release();
        land_maps_plan(maps, batch, pm, tables, lost, power)
    }
}

// The new maps of a plan that may need none.
fn listed(map: &Option<NewMap>) -> &[NewMap]
    ensures { result.now ≡ listed map.now }
{
    match map {
        Some(map) => slice::from_ref(map),
        None => &[],
    }
}

impl KSplit {
    /// The map of the inode of this number; None exactly past the last line.
    pub fn map(&self, ino: u32) -> Option<&ExtentMap>
        ensures some { IsSome result ↔ (ino < length self.now.volume.inodes) }
        ensures map { IfSome result (λ map. map.now ≡ extents self.now.volume ino) }
    {
        self.tables.map(ino)
    }

    /// How many data blocks may be taken: those that nothing names, less those that wait for a
    /// commit.
    pub fn free_blocks(&self) -> u32
        ensures { result ≡ free_blocks_in self.now }
    {
        self.tables.free_blocks()
    }

    // Gives a file a size with the blocks that are free, as `set_size` says. `None` where these are too
    // few and others wait: then nothing is changed, and no step is taken.
    fn resize(
        &mut self,
        alloc: Global,
        ino: u32,
        size: u64,
        power: &mut Power,
    ) -> Option<Result<(), KFault>>
        requires on { is_on power.old ≡ true }
        requires awake { self.old.lost ≡ false }
        requires file { IsLiveFile ino self.old.volume }
        requires size { size ≤ LONGEST_FILE }
        requires room { reserve self.old.volume.geometry ≤ unused_blocks self.old.volume + 3 }
        ensures wants { result ≡ None → (self.new ≡ self.old) × (power.new ≡ power.old)
            × WantsToResize ino size self.old }
        ensures steps { self.old.lines ≡ [] → Steps (2 ^ 15) power.old power.new }
        ensures most { Steps (2 ^ 15 + 4096) power.old power.new }
        ensures paid { self.old.batched ≡ false
            → IfSome result (λ r. IsPaid None power.old power.new r) }
        ensures answer { self.old.batched ≡ false
            → IfSome result (λ r. IsSizeAnswer ino size self.old self.new r) }
        ensures gathers { self.old.batched ≡ true
            → IfSome result (λ r. IsGatherSize ino size self.old self.new r) }
    {
        let map = match plan_size(alloc, &mut self.tables, &mut self.batch, ino, size) {
            Ok(map) => map,
            Err(MapFault::NoMemory) => return Some(Err(KFault::NoMemory)),
            Err(MapFault::Few) => return None,
        };
        Some(land_maps_change(
            self.batched,
            listed(&map),
            &mut self.group,
            &mut self.batch,
            &mut self.pm,
            &mut self.tables,
            &mut self.lost,
            power,
        ))
    }

    /// Gives a file a size of at most 16,777,216 bytes, as one transaction; what its map has past
    /// the new end is dropped, also where the size stays. A map that is cut is written anew, into the
    /// lowest free blocks; the blocks that it has no longer are free. `reserve - 3` blocks are free or
    /// wait for a commit; where some that wait are wanted, all that gathers is committed before. Where
    /// nothing is cut off the file's line alone changes, and no block is written.
    ///
    /// A file counts by its size against the blocks of the image, holes too: a checked image has room
    /// for all files with no hole. No test is made here, so the layer above asks for no size that
    /// has no room; an image with such a file is refused at the next mount.
    ///
    /// # Errors
    ///
    /// `PowerLost` and `NoMemory` alone, as [`KFault`] says.
    ///
    /// # Steps
    ///
    /// At most 2^15, and 4,112 more where changes gather.
    pub fn set_size(
        &mut self,
        alloc: Global,
        ino: u32,
        size: u64,
        power: &mut Power,
    ) -> Result<(), KFault>
        requires awake { self.old.lost ≡ true → is_on power.old ≡ false }
        requires file { self.old.lost ≡ false → IsLiveFile ino self.old.volume }
        requires size { size ≤ LONGEST_FILE }
        requires room { self.old.lost ≡ false
            → reserve self.old.volume.geometry ≤ unused_blocks self.old.volume + 3 }
        ensures steps { self.old.batched ≡ false → Steps (2 ^ 15) power.old power.new }
        ensures most { Steps (2 ^ 15 + 4112) power.old power.new }
        ensures paid { self.old.batched ≡ false
            → IsPaid None power.old power.new result }
        ensures answer { self.old.batched ≡ false
            → IsSizeAnswer ino size self.old self.new result }
        ensures gathers { self.old.batched ≡ true
            → IsGatherSize ino size self.old self.new result }
    {
        if !power.on() {
            self.lost = true;
            return Err(KFault::PowerLost);
        }
        match self.resize(alloc, ino, size, power) {
            Some(result) => return result,
            None => {}
        }
        match self.commit(power) {
            Commit::PowerLost => Err(KFault::PowerLost),
            Commit::Done => match self.resize(alloc, ino, size, power) {
                Some(result) => result,
                None => unreachable!(),
            },
        }
    }
}
