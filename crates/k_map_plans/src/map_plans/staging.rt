//! The blocks of a staging file: it gives them up, and gets new ones.
ghost use Rattle.std.specs.Prelude.{◌≡◌, ◌≢◌, ◌≤◌, ◌<◌, ◌+◌, ◌^◌, ◌∷◌, ℕ, [], All, length, Err, IfOk, OnErr, OnOk};
ghost use Rattle.k_plans.specs.layout_model.Places.{reserve};
ghost use Rattle.k_plans.specs.image_model.Volume.{chain, extents};
ghost use Rattle.k_map_plans.specs.Going.{HasSetAside};
ghost use Rattle.k_map_plans.specs.Plans.{IsGiveUpPlan, IsPreallocatePlan, IsStagingFile, WantsToPreallocate};
ghost use Rattle.k_plans.specs.Free.{SetsFreedAside, free_blocks, is_free_block};
ghost use Rattle.k_plans.specs.Switching.{IsMapPlan};
ghost use Rattle.k_plans.specs.k_split_model.MapChangesChanges.{aged, given_up, HasInOrder, IsPreallocated};

use crate::map_plans::faults::MapFault;
use crate::map_plans::going::go_over;
use extent_map::{Extent, ExtentMap};
use k_plans::{Batch, NewMap, Tables};
use layout_model::Inode;
use std::alloc::{AllocError, Global};

// Takes the map of a staging file away. Its blocks are set aside then. After an error others may be set
// aside, and nothing else is changed.
fn drop_map(
    alloc: Global,
    tables: &mut Tables,
    batch: &mut Batch,
    staging: u32,
) -> Result<NewMap, AllocError>
    requires empty { batch.old ≡ [] }
    requires idle { tables.old.aside ≡ [] }
    requires staging { IsStagingFile staging tables.old.volume }
    ensures given { OnOk result (tables.new.volume ≡ given_up staging tables.old.volume) }
    ensures plan { IfOk result (λ c.
        IsMapPlan (c ∷ []) tables.old.volume tables.new.volume batch.new) }
    ensures chain { IfOk result (λ c. c.blocks ≡ chain tables.new.volume staging) }
    ensures aside { OnOk result (SetsFreedAside tables.old tables.new) }
    ensures waiting { OnOk result (tables.new.waiting ≡ tables.old.waiting) }
    ensures err { OnErr result (HasSetAside tables.old tables.new) }
    ensures no_lines { OnErr result (batch.new ≡ []) }
{
    let map = tables.map_copied(alloc, staging)?;
    let none = ExtentMap::new(alloc);
    let line = tables.inodes()[staging as usize];
    match go_over(alloc, tables, batch, staging, &line, &none, map.extents()) {
        Ok(written) => Ok(written),
        Err(MapFault::NoMemory) => Err(AllocError),
        Err(MapFault::Few) => unreachable!(),
    }
}

/// Plans that a staging file gives up all its blocks. They are set aside then. It wants no block. An
/// error leaves tables and batch as they were.
pub fn plan_give_up(
    alloc: Global,
    tables: &mut Tables,
    batch: &mut Batch,
    staging: u32,
) -> Result<NewMap, AllocError>
    requires empty { batch.old ≡ [] }
    requires idle { tables.old.aside ≡ [] }
    requires staging { IsStagingFile staging tables.old.volume }
    ensures { IsGiveUpPlan staging tables.old tables.new batch.new result }
{
    let planned = drop_map(alloc, tables, batch, staging);
    if planned.is_err() {
        tables.release();
    }
    planned
}

// Gives a staging file without blocks the lowest free ones. After an error blocks may be set aside,
// and nothing else is changed.
fn fill_staging(
    alloc: Global,
    tables: &mut Tables,
    batch: &mut Batch,
    staging: u32,
    count: u32,
) -> Result<NewMap, MapFault>
    requires empty { batch.old ≡ [] }
    requires idle { tables.old.aside ≡ [] }
    requires staging { IsStagingFile staging tables.old.volume }
    requires bare { extents tables.old.volume staging ≡ [] }
    requires most { count ≤ 64 }
    ensures filled { OnOk result (IsPreallocated (is_free_block tables.old) staging count
        tables.old.volume tables.new.volume) }
    ensures plan { IfOk result (λ c.
        IsMapPlan (c ∷ []) tables.old.volume tables.new.volume batch.new) }
    ensures chain { IfOk result (λ c. c.blocks ≡ chain tables.new.volume staging) }
    ensures aside { OnOk result (SetsFreedAside tables.old tables.new) }
    ensures waiting { OnOk result (tables.new.waiting ≡ tables.old.waiting) }
    ensures few { result ≡ Err MapFault.Few
        → ((n : ℕ) × WantsToPreallocate count tables.old n × (free_blocks tables.old < n))
        × (free_blocks tables.old + 1 < count + reserve tables.old.volume.geometry) }
    ensures err { OnErr result (HasSetAside tables.old tables.new) }
    ensures no_lines { OnErr result (batch.new ≡ []) }
{
    let Some(fresh) = tables.set_aside(count)? else {
        return Err(MapFault::Few);
    };
    let map = map_in_order(alloc, &fresh)?;
    let line = aged(&tables.inodes()[staging as usize]);
    go_over(alloc, tables, batch, staging, &line, &map, &[])
}

/// Plans that a staging file without blocks gets the `count` lowest free ones, from 1 to 64, in
/// rising order; its generation rises by 1 modulo 2^32. Nothing comes free but its chain, which is
/// set aside then.
///
/// # Errors
///
/// `Few` exactly where fewer blocks are free than `count`, or than these and the new chain. It does
/// not come where as many are free as `count` and the reserve less 1. An error leaves tables and batch
/// as they were.
pub fn plan_preallocate(
    alloc: Global,
    tables: &mut Tables,
    batch: &mut Batch,
    staging: u32,
    count: u32,
) -> Result<NewMap, MapFault>
    requires empty { batch.old ≡ [] }
    requires idle { tables.old.aside ≡ [] }
    requires staging { IsStagingFile staging tables.old.volume }
    requires bare { extents tables.old.volume staging ≡ [] }
    requires most { count ≤ 64 }
    ensures answer { IsPreallocatePlan staging count tables.old tables.new batch.new result }
    ensures enough { count + reserve tables.old.volume.geometry ≤ free_blocks tables.old + 1
        → result ≢ Err MapFault.Few }
{
    let planned = fill_staging(alloc, tables, batch, staging, count);
    if planned.is_err() {
        tables.release();
    }
    planned
}

// A line that is taken once more.
fn aged(inode: &Inode) -> Inode
    ensures { result ≡ aged inode.now }
{
    Inode {
        generation: inode.generation.wrapping_add(1),
        ..*inode
    }
}

/// The map that gives file block k the k-th of the blocks.
pub(crate) fn map_in_order(alloc: Global, blocks: &[u32]) -> Result<ExtentMap, AllocError>
    requires few { length blocks.now ≤ 4096 }
    requires fits { All (λ block. block + 1 < 2 ^ 32) blocks.now }
    ensures { IfOk result (HasInOrder blocks.now) }
{
    let mut map = ExtentMap::new(alloc);
    for (place, block) in blocks.iter().enumerate() {
        map.replace_range(Extent {
            file: place as u32,
            disk: *block,
            count: 1,
        })?;
    }
    Ok(map)
}
