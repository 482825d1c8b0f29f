//! Runs of blocks go from the maps of staging files into the map of a file, in memory.
ghost use Rattle.std.specs.Prelude.{◌≡◌, ◌+◌, ◌≤◌, ◌<◌, ℕ, length, map, IfOk, OnOk};
ghost use Rattle.std.specs.List.{range_with_len};
ghost use Rattle.k_plans.specs.image_model.Volume.{extents};
ghost use Rattle.k_plans.specs.Whole.{IsWhole};
ghost use Rattle.k_relink.specs.extent_model.Extents.{IsCanonical};
ghost use Rattle.k_relink.specs.extent_model.Moves.{IsMapped};
ghost use Rattle.k_map_plans.specs.Landings.{MayLand};
ghost use Rattle.k_map_plans.specs.Linking.{AreLinked, RunGoes, left_at, whole_left};

use crate::map_plans::moving::blocks_at;
use extent_map::{Extent, ExtentMap};
use k_plans::Tables;
use k_relink::{RelinkFault, Relinked, relink};
use k_split_model::{Landing, MoveRun};
use std::alloc::{AllocError, Global};
use std::marker::Model;

/// A staging file while runs go: what its map has left, and the blocks that went from it.
#[derive(Drop)]
pub(crate) struct Left {
    pub(crate) map: ExtentMap,
    pub(crate) went: Vec<u32>,
}

impl Model for Left {
    ghost use Rattle.k_map_plans.specs.Linking.{Left};

    ghost Value = { Left };

    ghost view = { λ l. record { map = l.map; went = l.went.items } };
}

/// The maps once all runs went: the four staging files, the file's map, and what the file lost.
#[derive(Drop)]
pub(crate) struct Linked {
    pub(crate) lefts: Vec<Left>,
    pub(crate) linked: ExtentMap,
    pub(crate) displaced: Vec<Extent>,
}

// The four staging files, of which nothing went.
fn all_left(alloc: Global, tables: &Tables) -> Result<Vec<Left>, AllocError>
    requires { 5 ≤ length tables.now.volume.inodes }
    ensures lefts { IfOk result (λ lefts.
        lefts.items ≡ map (whole_left tables.now.volume) (range_with_len 0 4)) }
    ensures canonical { OnOk result ((k : ℕ) → k < 4 → IsCanonical (extents tables.now.volume (k + 1))) }
{
    let mut lefts = Vec::new(alloc);
    for place in 0..4 {
        let map = tables.map_copied(alloc, place + 1)?;
        lefts.push(Left {
            map,
            went: Vec::new(alloc),
        })?;
    }
    Ok(lefts)
}

// A run goes from its staging file into the map. After an error it may have gone in part.
fn move_run(
    alloc: Global,
    lefts: &mut Vec<Left>,
    linked: &mut ExtentMap,
    displaced: &mut Vec<Extent>,
    run: &MoveRun,
) -> Result<(), AllocError>
    requires staging { 1 ≤ run.now.staging }
    requires below { run.now.staging ≤ length lefts.old.items }
    requires source { run.now.staging_block + run.now.count ≤ 4096 }
    requires target { run.now.file_block + run.now.count ≤ 4096 }
    requires there { IsMapped (left_at lefts.old.items run.now.staging).map
        run.now.staging_block run.now.count }
    ensures { OnOk result (RunGoes run.now lefts.old.items linked.old displaced.old.items
        lefts.new.items linked.new displaced.new.items) }
{
    let place = (run.staging - 1) as usize;
    let moved = blocks_at(alloc, &lefts[place].map, run.staging_block, run.count)?;
    let mut went = Vec::from_slice(alloc, &lefts[place].went)?;
    went.extend_from_slice(&moved)?;
    match relink(
        alloc,
        &lefts[place].map,
        run.staging_block,
        linked,
        run.file_block,
        run.count,
    ) {
        Ok(Relinked { src, dst, freed }) => {
            displaced.extend_from_slice(&freed)?;
            lefts[place] = Left { map: src, went };
            *linked = dst;
            Ok(())
        }
        Err(RelinkFault::NoMemory) => Err(AllocError),
        Err(RelinkFault::Hole { .. }) => unreachable!(),
    }
}

/// The maps that runs leave which go to a file, in their order.
pub(crate) fn link_runs(
    alloc: Global,
    tables: &Tables,
    asked: &Landing,
) -> Result<Linked, AllocError>
    requires { MayLand asked.now tables.now.volume }
    ensures linked { IfOk result (λ l. AreLinked tables.now.volume asked.now.ino asked.now.runs
        l.lefts.items l.linked l.displaced.items) }
    ensures whole { OnOk result (IsWhole tables.now.volume) }
{
    let mut linked = tables.map_copied(alloc, asked.ino)?;
    let mut lefts = all_left(alloc, tables)?;
    let mut displaced = Vec::new(alloc);
    for run in &asked.runs {
        move_run(alloc, &mut lefts, &mut linked, &mut displaced, run)?;
    }
    Ok(Linked {
        lefts,
        linked,
        displaced,
    })
}
