//! Blocks go from a staging file to a file.
ghost use Rattle.std.specs.Prelude.{◌≡◌, ◌≢◌, ◌<◌, ◌≤◌, ◌+◌, ◌++◌, ◌∷◌, [], ℕ, All, List, length, Err, IfOk, OnErr, OnOk};
ghost use Rattle.block_counts.specs.Counts.{chains_for};
ghost use Rattle.k_plans.specs.layout_model.Places.{reserve};
ghost use Rattle.k_plans.specs.image_model.Volume.{Volume, chain, extents, inode};
ghost use Rattle.k_relink.specs.extent_model.Extents.{IsCanonical, IsExtent};
ghost use Rattle.k_relink.specs.extent_model.declared.extent_words.Extent.{Extent};
ghost use Rattle.k_relink.specs.extent_model.Moves.{IsMapped, Moves};
ghost use Rattle.k_plans.specs.LandingsPlans.{IsMapFrom, NewChain, Turns};
ghost use Rattle.k_map_plans.specs.Moving.{MayGoBoth, moved_volume};
ghost use Rattle.k_map_plans.specs.Going.{HasSetAside};
ghost use Rattle.k_map_plans.specs.Plans.{IsMovePlan, MayMove, WantsToMove};
ghost use Rattle.k_plans.specs.Free.{AreKeptBack, SetsFreedAside, free_blocks, is_free_block};
ghost use Rattle.k_plans.specs.Switching.{IsMapPlan, IsSetAside};
ghost use Rattle.k_plans.specs.volume_laws.Uses.{in_chain, in_map};
ghost use Rattle.k_plans.specs.Whole.{IsWhole};
ghost use Rattle.k_plans.specs.k_split_model.MapChangesChanges.{IsMoved, with_length};
ghost use Rattle.k_plans.specs.k_split_model.Taken.{switched, with_map};
ghost use Rattle.k_plans.specs.volume_change_laws.Hits.{AreAt};

use crate::map_plans::faults::MapFault;
use crate::map_plans::lists::push_extents;
use block_counts::chains_for;
use extent_map::{Extent, ExtentMap};
use k_plans::{Batch, Move, NewMap, Tables};
use k_relink::{RelinkFault, Relinked, relink};
use layout_model::Inode;
use std::alloc::{AllocError, Global};

/// The disk blocks of `count` file blocks of a map from `from` on, each of which has one.
pub(crate) fn blocks_at(
    alloc: Global,
    map: &ExtentMap,
    from: u32,
    count: u32,
) -> Result<Vec<u32>, AllocError>
    requires fits { from + count ≤ 4096 }
    requires there { IsMapped map.now from count }
    ensures size { IfOk result (λ blocks. length blocks.items ≡ count) }
    ensures at { IfOk result (λ blocks. AreAt map.now from blocks.items) }
{
    let mut blocks = Vec::new(alloc);
    for place in from..from + count {
        if let Some(block) = map.lookup(place) {
            blocks.push(block)?;
        }
    }
    Ok(blocks)
}

// The new maps of a move, for whose chains blocks are set aside, and what the file had in the range.
#[derive(Drop)]
struct Placed {
    file: NewMap,
    staging: NewMap,
    displaced: Vec<Extent>,
}

// What the tables take in a move: the map and the chain of the staging file and of the file, and the
// blocks that are set aside behind each.
#[derive(Drop)]
struct Going {
    left: ExtentMap,
    rest: Vec<u32>,
    gone: Vec<u32>,
    linked: ExtentMap,
    blocks: Vec<u32>,
    freed: Vec<u32>,
}

// Sets blocks aside for the chains of both maps, those of the file's first.
fn set_both_aside(tables: &mut Tables, linked: Relinked) -> Result<Placed, MapFault>
    requires idle { tables.old.aside ≡ [] }
    ensures aside { HasSetAside tables.old tables.new }
    ensures back { OnOk result (AreKeptBack tables.old) }
    ensures few { result ≡ Err MapFault.Few → free_blocks tables.old
        < chains_for (length linked.dst) + chains_for (length linked.src) }
    ensures file_map { IfOk result (λ placed. placed.file.extents ≡ linked.dst) }
    ensures staging_map { IfOk result (λ placed. placed.staging.extents ≡ linked.src) }
    ensures displaced { IfOk result (λ placed. placed.displaced.items ≡ linked.freed.items) }
    ensures file_size { IfOk result (λ placed.
        length placed.file.blocks ≡ chains_for (length linked.dst)) }
    ensures staging_size { IfOk result (λ placed.
        length placed.staging.blocks ≡ chains_for (length linked.src)) }
    ensures taken { IfOk result (λ placed.
        IsSetAside (chains_for (length linked.dst) + chains_for (length linked.src))
        (placed.file.blocks ++ placed.staging.blocks) tables.old tables.new) }
{
    let Relinked {
        src,
        dst,
        freed: displaced,
    } = linked;
    let count = chains_for(dst.extents().len() as u64) as u32;
    let rest_count = chains_for(src.extents().len() as u64) as u32;
    let Some(mut blocks) = tables.set_aside(count + rest_count)? else {
        return Err(MapFault::Few);
    };
    let rest = blocks.split_off(count as usize)?;
    Ok(Placed {
        file: NewMap { blocks, map: dst },
        staging: NewMap {
            blocks: rest,
            map: src,
        },
        displaced,
    })
}

// The blocks of three lists.
fn joined(
    alloc: Global,
    first: &[u32],
    second: &[u32],
    third: &[u32],
) -> Result<Vec<u32>, AllocError>
    ensures { IfOk result (λ all. all.items ≡ first.now ++ second.now ++ third.now) }
{
    let mut all = Vec::from_slice(alloc, first)?;
    all.extend_from_slice(second)?;
    all.extend_from_slice(third)?;
    Ok(all)
}

// The blocks of two lists, and those of extents.
fn joined_with(
    alloc: Global,
    first: &[u32],
    second: &[u32],
    displaced: &[Extent],
) -> Result<Vec<u32>, AllocError>
    requires { All IsExtent displaced.now }
    ensures { IfOk result (λ all. (b : ℕ) →
        in_chain all.items b ≡ in_chain (first.now ++ second.now) b + in_map displaced.now b) }
{
    let mut all = Vec::from_slice(alloc, first)?;
    all.extend_from_slice(second)?;
    push_extents(&mut all, displaced)?;
    Ok(all)
}

// What the tables take for these new maps.
fn taken_by(
    alloc: Global,
    tables: &Tables,
    asked: &Move,
    moved: &[u32],
    placed: &Placed,
) -> Result<Going, AllocError>
    requires staging { asked.now.staging < length tables.now.volume.inodes }
    requires file { asked.now.ino < length tables.now.volume.inodes }
    requires extents { All IsExtent placed.now.displaced.items }
    ensures left { IfOk result (λ going. going.left ≡ placed.now.staging.extents) }
    ensures rest { IfOk result (λ going. going.rest.items ≡ placed.now.staging.blocks) }
    ensures linked { IfOk result (λ going. going.linked ≡ placed.now.file.extents) }
    ensures blocks { IfOk result (λ going. going.blocks.items ≡ placed.now.file.blocks) }
    ensures gone { IfOk result (λ going. going.gone.items
        ≡ chain tables.now.volume asked.now.staging ++ moved.now ++ placed.now.file.blocks) }
    ensures freed { IfOk result (λ going. (b : ℕ) → in_chain going.freed.items b
        ≡ in_chain (chain tables.now.volume asked.now.staging
        ++ chain tables.now.volume asked.now.ino) b + in_map placed.now.displaced.items b) }
{
    let gone = joined(
        alloc,
        tables.chain(asked.staging),
        moved,
        &placed.file.blocks,
    )?;
    let freed = joined_with(
        alloc,
        tables.chain(asked.staging),
        tables.chain(asked.ino),
        &placed.displaced,
    )?;
    let left = placed.staging.map.copied(alloc)?;
    let rest = Vec::from_slice(alloc, &placed.staging.blocks)?;
    let linked = placed.file.map.copied(alloc)?;
    let blocks = Vec::from_slice(alloc, &placed.file.blocks)?;
    Ok(Going {
        left,
        rest,
        gone,
        linked,
        blocks,
        freed,
    })
}

// The two inodes of a move go over to their maps, and are planned.
fn switch_both(tables: &mut Tables, batch: &mut Batch, asked: &Move, going: Going)
    requires empty { batch.old ≡ [] }
    requires may { MayGoBoth asked.now tables.old going.left going.rest.items going.gone.items going.linked going.blocks.items going.freed.items }
    ensures whole { IsWhole tables.new.volume }
    ensures free { (b : ℕ) → is_free_block tables.new b ≡ is_free_block tables.old b }
    ensures back { AreKeptBack tables.new }
    ensures waiting { tables.new.waiting ≡ tables.old.waiting }
    ensures moved { tables.new.volume ≡ moved_volume asked.now going.left going.rest.items going.linked going.blocks.items tables.old.volume }
    ensures turns { (news : List NewChain) (v : Volume)
        → IsMapFrom news tables.old.volume asked.now.staging
        (with_map going.rest.items going.left (inode tables.old.volume asked.now.staging)) going.rest.items going.left
        → IsMapFrom news (switched asked.now.staging (inode tables.old.volume asked.now.staging) going.rest.items going.left tables.old.volume) asked.now.ino
        (with_map going.blocks.items going.linked (with_length asked.now.size asked.now.applied (inode tables.old.volume asked.now.ino))) going.blocks.items going.linked
        → Turns tables.old.volume.geometry news v tables.old.volume []
        → Turns tables.old.volume.geometry news v tables.new.volume batch.new }
    ensures some { 0 < length batch.new }
    ensures most { length batch.new ≤ 2 }
{
    let staging_line = tables.inodes()[asked.staging as usize];
    let line = Inode {
        size: asked.size,
        applied: asked.applied,
        ..tables.inodes()[asked.ino as usize]
    };
    let Going {
        left,
        rest,
        gone,
        linked,
        blocks,
        freed,
    } = going;
    tables.switch(batch, asked.staging, &staging_line, left, rest, gone);
    tables.switch(batch, asked.ino, &line, linked, blocks, freed);
}

// Sets blocks for the two chains aside, and lets the two inodes go over to their maps. After an
// error blocks may be set aside, and nothing else is changed.
fn place_both(
    alloc: Global,
    tables: &mut Tables,
    batch: &mut Batch,
    asked: &Move,
    moved: &[u32],
    linked: Relinked,
) -> Result<(NewMap, NewMap), MapFault>
    requires empty { batch.old ≡ [] }
    requires idle { tables.old.aside ≡ [] }
    requires may { MayMove asked.now tables.old.volume }
    requires source { IsCanonical (extents tables.old.volume asked.now.staging) }
    requires target { IsCanonical (extents tables.old.volume asked.now.ino) }
    requires moves { Moves asked.now.staging_block asked.now.file_block asked.now.count
        (extents tables.old.volume asked.now.staging) (extents tables.old.volume asked.now.ino)
        linked.src linked.dst linked.freed.items }
    requires at { AreAt (extents tables.old.volume asked.now.staging) asked.now.staging_block moved.now }
    requires size { length moved.now ≡ asked.now.count }
    requires whole { IsWhole tables.old.volume }
    ensures moved { OnOk result (IsMoved (is_free_block tables.old) asked.now
        tables.old.volume tables.new.volume linked.freed.items) }
    ensures plan { IfOk result (λ c.
        IsMapPlan (c.0 ∷ c.1 ∷ []) tables.old.volume tables.new.volume batch.new) }
    ensures file_chain { IfOk result (λ c. c.0.blocks ≡ chain tables.new.volume asked.now.ino) }
    ensures staging_chain { IfOk result (λ c.
        c.1.blocks ≡ chain tables.new.volume asked.now.staging) }
    ensures aside { OnOk result (SetsFreedAside tables.old tables.new) }
    ensures waiting { OnOk result (tables.new.waiting ≡ tables.old.waiting) }
    ensures few { result ≡ Err MapFault.Few
        → ((n : ℕ) × WantsToMove asked.now tables.old.volume n × (free_blocks tables.old < n))
        × (free_blocks tables.old + 2 < reserve tables.old.volume.geometry) }
    ensures err { OnErr result (HasSetAside tables.old tables.new) }
    ensures no_lines { OnErr result (batch.new ≡ []) }
{
    let placed = set_both_aside(tables, linked)?;
    let going = taken_by(alloc, tables, asked, moved, &placed)?;
    switch_both(tables, batch, asked, going);
    Ok((placed.file, placed.staging))
}

// Moves the blocks on the tables. What the file had in their place is set aside then. After an error
// blocks may be set aside, and nothing else is changed.
fn move_blocks(
    alloc: Global,
    tables: &mut Tables,
    batch: &mut Batch,
    asked: &Move,
) -> Result<(NewMap, NewMap), MapFault>
    requires empty { batch.old ≡ [] }
    requires idle { tables.old.aside ≡ [] }
    requires may { MayMove asked.now tables.old.volume }
    ensures moved { OnOk result ((displaced : List Extent) × IsMoved (is_free_block tables.old)
        asked.now tables.old.volume tables.new.volume displaced) }
    ensures plan { IfOk result (λ c.
        IsMapPlan (c.0 ∷ c.1 ∷ []) tables.old.volume tables.new.volume batch.new) }
    ensures file_chain { IfOk result (λ c. c.0.blocks ≡ chain tables.new.volume asked.now.ino) }
    ensures staging_chain { IfOk result (λ c.
        c.1.blocks ≡ chain tables.new.volume asked.now.staging) }
    ensures aside { OnOk result (SetsFreedAside tables.old tables.new) }
    ensures waiting { OnOk result (tables.new.waiting ≡ tables.old.waiting) }
    ensures few { result ≡ Err MapFault.Few
        → ((n : ℕ) × WantsToMove asked.now tables.old.volume n × (free_blocks tables.old < n))
        × (free_blocks tables.old + 2 < reserve tables.old.volume.geometry) }
    ensures err { OnErr result (HasSetAside tables.old tables.new) }
    ensures no_lines { OnErr result (batch.new ≡ []) }
{
    let src = tables.map_copied(alloc, asked.staging)?;
    let dst = tables.map_copied(alloc, asked.ino)?;
    let moved = blocks_at(alloc, &src, asked.staging_block, asked.count)?;
    match relink(
        alloc,
        &src,
        asked.staging_block,
        &dst,
        asked.file_block,
        asked.count,
    ) {
        Ok(linked) => place_both(alloc, tables, batch, asked, &moved, linked),
        Err(RelinkFault::NoMemory) => Err(MapFault::NoMemory),
        Err(RelinkFault::Hole { .. }) => unreachable!(),
    }
}

/// Plans that blocks go from a staging file to a file, which has the size and the order of its last
/// entry then. It answers the new maps of the file and of the staging file. What the file had in
/// their place is set aside then, with the two old chains.
///
/// # Errors
///
/// `Few` exactly where fewer blocks are free than the chains of the two new maps take. It does not come
/// where as many are free as the reserve less 2. An error leaves tables and batch as they were.
pub fn plan_move(
    alloc: Global,
    tables: &mut Tables,
    batch: &mut Batch,
    asked: &Move,
) -> Result<(NewMap, NewMap), MapFault>
    requires empty { batch.old ≡ [] }
    requires idle { tables.old.aside ≡ [] }
    requires may { MayMove asked.now tables.old.volume }
    ensures answer { IsMovePlan asked.now tables.old tables.new batch.new result }
    ensures enough { reserve tables.old.volume.geometry ≤ free_blocks tables.old + 2
        → result ≢ Err MapFault.Few }
{
    let planned = move_blocks(alloc, tables, batch, asked);
    if planned.is_err() {
        tables.release();
    }
    planned
}
