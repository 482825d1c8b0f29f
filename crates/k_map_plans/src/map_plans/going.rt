//! One inode goes over to another map, or keeps its own with another line.
ghost use Rattle.std.specs.Prelude.{◌≡◌, ◌<◌, ◌≤◌, [], All, length, Err, IfOk, OnErr, OnOk};
ghost use Rattle.block_counts.specs.Counts.{chains_for};
ghost use Rattle.k_relink.specs.extent_model.Extents.{IsExtent};
ghost use Rattle.k_map_plans.specs.Going.{HasGoneOver, HasSetAside, MayGoOver, MayKeep, kept_map};
ghost use Rattle.k_plans.specs.Free.{SetsFreedAside, free_blocks};
ghost use Rattle.k_plans.specs.Switching.{IsMapPlan};
ghost use Rattle.k_plans.specs.View.{with_volume};

use crate::map_plans::faults::MapFault;
use crate::map_plans::lists::push_extents;
use block_counts::chains_for;
use extent_map::{Extent, ExtentMap};
use k_plans::{Batch, NewMap, Tables};
use layout_model::Inode;
use std::alloc::{AllocError, Global};

/// Sets blocks for a chain aside, gives the inode this line and this map, and plans it. The old
/// chain and what is freed of the old map are set aside then. After an error other blocks may be set
/// aside, and nothing else is changed.
///
/// # Errors
///
/// `Few` exactly where fewer blocks are free than the chain takes.
pub(crate) fn go_over(
    alloc: Global,
    tables: &mut Tables,
    batch: &mut Batch,
    ino: u32,
    inode: &Inode,
    map: &ExtentMap,
    freed: &[Extent],
) -> Result<NewMap, MapFault>
    requires empty { batch.old ≡ [] }
    requires may { MayGoOver tables.old ino inode.now map.now freed.now }
    requires freed { All IsExtent freed.now }
    ensures gone { IfOk result (HasGoneOver ino inode.now map.now tables.old tables.new batch.new) }
    ensures few { result ≡ Err MapFault.Few → free_blocks tables.old < chains_for (length map.now) }
    ensures err { OnErr result (HasSetAside tables.old tables.new) }
    ensures no_lines { OnErr result (batch.new ≡ []) }
{
    let own = map.copied(alloc)?;
    let written = map.copied(alloc)?;
    let mut aside = Vec::from_slice(alloc, tables.chain(ino))?;
    push_extents(&mut aside, freed)?;
    let count = chains_for(map.extents().len() as u64) as u32;
    let Some(blocks) = tables.set_aside(count)? else {
        return Err(MapFault::Few);
    };
    let chain = Vec::from_slice(alloc, &blocks)?;
    tables.switch(batch, ino, inode, own, chain, aside);
    Ok(NewMap {
        blocks,
        map: written,
    })
}

/// Gives the inode this line, with the chain and the map that it has, and plans it. An error leaves
/// tables and batch as they were.
pub(crate) fn keep_map(
    alloc: Global,
    tables: &mut Tables,
    batch: &mut Batch,
    ino: u32,
    inode: &Inode,
) -> Result<(), AllocError>
    requires empty { batch.old ≡ [] }
    requires may { MayKeep tables.old ino inode.now }
    ensures kept { OnOk result
        (tables.new ≡ with_volume (kept_map ino inode.now tables.old.volume) tables.old) }
    ensures plan { OnOk result
        (IsMapPlan [] tables.old.volume tables.new.volume batch.new) }
    ensures line { OnOk result (length batch.new ≤ 1) }
    ensures aside { OnOk result (SetsFreedAside tables.old tables.new) }
    ensures same { OnErr result (tables.new ≡ tables.old) }
    ensures no_lines { OnErr result (batch.new ≡ []) }
{
    let map = tables.map_copied(alloc, ino)?;
    let blocks = Vec::from_slice(alloc, tables.chain(ino))?;
    tables.switch(batch, ino, inode, map, blocks, Vec::new(alloc));
    Ok(())
}
