//! The holes of a file get blocks.
ghost use Rattle.std.specs.Prelude.{◌≡◌, ◌≢◌, ◌<◌, ◌≤◌, ◌+◌, ◌^◌, ◌∷◌, [], ℕ, true, All, length, Err, Ok, IfErr, IfOk, OnErr, OnOk};
ghost use Rattle.k_plans.specs.image_model.Volume.{chain, extents};
ghost use Rattle.k_map_plans.specs.Going.{HasSetAside};
ghost use Rattle.k_map_plans.specs.Plans.{fill_row, IsFillPlan, IsLiveFile, IsNotMade, MayFill, row_of, WantsToFill};
ghost use Rattle.k_plans.specs.Free.{SetsFreedAside, free_blocks, is_free_block};
ghost use Rattle.k_plans.specs.Switching.{IsMapPlan};
ghost use Rattle.k_plans.specs.layout_model.Places.{reserve};
ghost use Rattle.k_plans.specs.k_split_model.MapChangesChanges.{Fills, holes, IsFilled};
ghost use Rattle.k_plans.specs.volume_laws.Uses.{in_chain, in_map};

use crate::map_plans::faults::MapFault;
use crate::map_plans::going::go_over;
use extent_map::{Extent, ExtentMap};
use k_plans::{Batch, NewMap, Tables};
use posix_types::{Room, What};
use std::alloc::{AllocError, Global};

// How many of `count` file blocks from `first` on have no disk block.
fn hole_count(map: &ExtentMap, first: u32, count: u32) -> u32
    requires { first + count ≤ 4096 }
    ensures { result ≡ length (holes map.now first count) }
{
    let mut found = 0;
    for place in 0..count {
        match map.lookup(first + place) {
            None => found += 1,
            Some(_) => {}
        }
    }
    found
}

/// Whether the range of a file has a hole, where filling it finds room for its holes and the new
/// chain.
///
/// # Errors
///
/// What lacks: there is a hole, and fewer blocks are free than the holes and the reserve less 2.
pub fn may_fill(tables: &Tables, ino: u32, first: u32, count: u32) -> Result<bool, Room>
    requires file { IsLiveFile ino tables.now.volume }
    requires range { first + count ≤ 4096 }
    ensures row { row_of result ≡ fill_row ino first count tables.now }
    ensures may { result ≡ Ok true → MayFill ino first count tables.now }
{
    let missing = match tables.map(ino) {
        Some(map) => hole_count(map, first, count),
        None => unreachable!(),
    };
    if missing == 0 {
        return Ok(false);
    }
    let need = u64::from(missing) + u64::from(tables.geometry().reserve()) - 2;
    let room = u64::from(tables.free_blocks());
    if room < need {
        return Err(Room {
            what: What::Blocks,
            need,
            room,
        });
    }
    Ok(true)
}

// Gives the holes among `count` file blocks from `first` on these disk blocks, in their order. After
// an error some have them.
fn fill_map(map: &mut ExtentMap, first: u32, count: u32, fresh: &[u32]) -> Result<(), AllocError>
    requires in_file { first + count ≤ 4096 }
    requires each { length fresh.now ≡ length (holes map.old first count) }
    requires fits { All (λ block. block + 1 < 2 ^ 32) fresh.now }
    ensures fills { OnOk result (Fills first count fresh.now map.old map.new) }
    ensures blocks { OnOk result ((b : ℕ) →
        in_map map.new b ≡ in_map map.old b + in_chain fresh.now b) }
{
    let _extents = map.extents();
    let mut taken = 0;
    for place in 0..count {
        let file = first + place;
        match map.lookup(file) {
            None => {
                map.replace_range(Extent {
                    file,
                    disk: fresh[taken],
                    count: 1,
                })?;
                taken += 1;
            }
            Some(_) => {}
        }
    }
    Ok(())
}

// Gives the holes of a range of a file the lowest free blocks. After an error blocks may be set
// aside, and nothing else is changed.
fn fill_file(
    alloc: Global,
    tables: &mut Tables,
    batch: &mut Batch,
    ino: u32,
    first: u32,
    count: u32,
) -> Result<(Vec<u32>, NewMap), MapFault>
    requires empty { batch.old ≡ [] }
    requires idle { tables.old.aside ≡ [] }
    requires file { IsLiveFile ino tables.old.volume }
    requires range { first + count ≤ 4096 }
    requires some { 0 < length (holes (extents tables.old.volume ino) first count) }
    ensures filled { IfOk result (λ c. IsFilled (is_free_block tables.old) ino first count
        tables.old.volume tables.new.volume c.0.items) }
    ensures plan { IfOk result (λ c.
        IsMapPlan (c.1 ∷ []) tables.old.volume tables.new.volume batch.new) }
    ensures chain { IfOk result (λ c. c.1.blocks ≡ chain tables.new.volume ino) }
    ensures aside { OnOk result (SetsFreedAside tables.old tables.new) }
    ensures waiting { OnOk result (tables.new.waiting ≡ tables.old.waiting) }
    ensures few { result ≡ Err MapFault.Few
        → ((n : ℕ) × WantsToFill ino first count tables.old n × (free_blocks tables.old < n))
        × (free_blocks tables.old + 2 < length (holes (extents tables.old.volume ino) first count)
        + reserve tables.old.volume.geometry) }
    ensures err { OnErr result (HasSetAside tables.old tables.new) }
    ensures no_lines { OnErr result (batch.new ≡ []) }
{
    let mut map = tables.map_copied(alloc, ino)?;
    let missing = hole_count(&map, first, count);
    let Some(fresh) = tables.set_aside(missing)? else {
        return Err(MapFault::Few);
    };
    fill_map(&mut map, first, count, &fresh)?;
    let line = tables.inodes()[ino as usize];
    let written = go_over(alloc, tables, batch, ino, &line, &map, &[])?;
    Ok((fresh, written))
}

/// Plans that the holes of a range of a file, of which there is one at least, get the lowest free
/// blocks in rising order. It answers these blocks, of which nothing is written yet, and the new map.
/// The old chain is set aside then.
///
/// # Errors
///
/// `Few` exactly where fewer blocks are free than the holes, or than the holes and the new chain. It
/// does not come where as many are free as the holes and the reserve less 2. An error leaves tables
/// and batch as they were.
pub fn plan_fill(
    alloc: Global,
    tables: &mut Tables,
    batch: &mut Batch,
    ino: u32,
    first: u32,
    count: u32,
) -> Result<(Vec<u32>, NewMap), MapFault>
    requires empty { batch.old ≡ [] }
    requires idle { tables.old.aside ≡ [] }
    requires file { IsLiveFile ino tables.old.volume }
    requires range { first + count ≤ 4096 }
    requires some { 0 < length (holes (extents tables.old.volume ino) first count) }
    ensures planned { IfOk result (λ c.
        IsFillPlan ino first count tables.old tables.new batch.new c.0.items c.1) }
    ensures err { IfErr result (IsNotMade (WantsToFill ino first count tables.old)
        tables.old tables.new batch.new) }
    ensures enough { MayFill ino first count tables.old → result ≢ Err MapFault.Few }
{
    let planned = fill_file(alloc, tables, batch, ino, first, count);
    if planned.is_err() {
        tables.release();
    }
    planned
}
