//! The size of a file.
ghost use Rattle.std.specs.Prelude.{◌≡◌, ◌≢◌, ◌≤◌, ◌<◌, ◌+◌, ℕ, [], Err, IfOk, OnErr, OnOk};
ghost use Rattle.layout_model.specs.block_counts.declared.TheConstants.{LONGEST_FILE};
ghost use Rattle.k_plans.specs.layout_model.Places.{reserve};
ghost use Rattle.k_plans.specs.LandingsPlans.{blocks_of};
ghost use Rattle.k_map_plans.specs.Going.{HasOwnMap, HasSetAside};
ghost use Rattle.k_map_plans.specs.Plans.{IsLiveFile, IsSizePlan, WantsToCut, listed};
ghost use Rattle.k_plans.specs.Free.{SetsFreedAside, free_blocks, is_free_block};
ghost use Rattle.k_plans.specs.Switching.{IsMapPlan};
ghost use Rattle.k_plans.specs.k_split_model.MapChangesChanges.{IsSized, WritesChain};

use crate::map_plans::faults::MapFault;
use crate::map_plans::going::{go_over, keep_map};
use block_counts::blocks_for;
use k_plans::{Batch, NewMap, Tables};
use layout_model::Inode;
use std::alloc::Global;

// Cuts the map of a file and gives it the size. What the file has no longer is set aside then; where
// it has all as before, its map stays. After an error blocks may be set aside, and nothing else is
// changed.
fn cut_map(
    alloc: Global,
    tables: &mut Tables,
    batch: &mut Batch,
    ino: u32,
    size: u64,
) -> Result<Option<NewMap>, MapFault>
    requires empty { batch.old ≡ [] }
    requires idle { tables.old.aside ≡ [] }
    requires file { IsLiveFile ino tables.old.volume }
    requires own { HasOwnMap tables.old.volume ino }
    requires size { size ≤ LONGEST_FILE }
    ensures sized { OnOk result
        (IsSized (is_free_block tables.old) ino size tables.old.volume tables.new.volume) }
    ensures plan { IfOk result (λ o.
        IsMapPlan (listed o) tables.old.volume tables.new.volume batch.new) }
    ensures written { IfOk result (λ o.
        WritesChain ino tables.old.volume tables.new.volume (blocks_of (listed o))) }
    ensures aside { OnOk result (SetsFreedAside tables.old tables.new) }
    ensures waiting { OnOk result (tables.new.waiting ≡ tables.old.waiting) }
    ensures few { result ≡ Err MapFault.Few
        → ((n : ℕ) × WantsToCut ino size tables.old.volume n × (free_blocks tables.old < n))
        × (free_blocks tables.old + 3 < reserve tables.old.volume.geometry) }
    ensures err { OnErr result (HasSetAside tables.old tables.new) }
    ensures no_lines { OnErr result (batch.new ≡ []) }
{
    let mut map = tables.map_copied(alloc, ino)?;
    let freed = map.cut(blocks_for(size) as u32)?;
    let line = Inode {
        size,
        ..tables.inodes()[ino as usize]
    };
    if freed.is_empty() {
        keep_map(alloc, tables, batch, ino, &line)?;
        return Ok(None);
    }
    let new = go_over(alloc, tables, batch, ino, &line, &map, &freed)?;
    Ok(Some(new))
}

/// Plans a size for a file, at most 16,777,216 bytes: what its map has past the new end is dropped,
/// also where the size stays. Where nothing is dropped its line alone changes, and no map is answered.
/// What comes free is set aside then. The file's line has the root of its chain, and the number of its
/// map's extents.
///
/// # Errors
///
/// `Few` exactly where something is dropped, and fewer blocks are free than a chain of what is left of
/// the map takes. It does not come where as many are free as the reserve less 3. An error leaves tables
/// and batch as they were.
pub fn plan_size(
    alloc: Global,
    tables: &mut Tables,
    batch: &mut Batch,
    ino: u32,
    size: u64,
) -> Result<Option<NewMap>, MapFault>
    requires empty { batch.old ≡ [] }
    requires idle { tables.old.aside ≡ [] }
    requires file { IsLiveFile ino tables.old.volume }
    requires own { HasOwnMap tables.old.volume ino }
    requires size { size ≤ LONGEST_FILE }
    ensures answer { IsSizePlan ino size tables.old tables.new batch.new result }
    ensures enough { reserve tables.old.volume.geometry ≤ free_blocks tables.old + 3
        → result ≢ Err MapFault.Few }
{
    let planned = cut_map(alloc, tables, batch, ino, size);
    if planned.is_err() {
        tables.release();
    }
    planned
}
