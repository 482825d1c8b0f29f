//! Runs of blocks go from staging files to a file by one landing.
ghost use Rattle.std.specs.Prelude.{◌≡◌, ◌≢◌, ◌<◌, ◌≤◌, ◌+◌, ◌++◌, ◌∷◌, ◌==◌, [], ℕ, All, List, drop, length, map, sum_by, Err, IfErr, IfOk, OnErr, OnOk};
ghost use Rattle.std.specs.List.{flat_map, list_any};
ghost use Rattle.k_plans.specs.layout_model.Places.{reserve};
ghost use Rattle.k_plans.specs.image_model.Volume.{chain};
ghost use Rattle.k_relink.specs.extent_model.Extents.{IsExtent};
ghost use Rattle.k_plans.specs.LandingsPlans.{blocks_of, new_at};
ghost use Rattle.k_plans.specs.Free.{AreKeptBack, free_blocks};
ghost use Rattle.k_plans.specs.Switching.{IsSetAside};
ghost use Rattle.k_plans.specs.Whole.{IsWhole};
ghost use Rattle.k_plans.specs.k_split_model.MapChangesChanges.{touched};
ghost use Rattle.k_plans.specs.k_split_model.declared.map_changes.moves.MoveRun.{MoveRun};
ghost use Rattle.k_map_plans.specs.Going.{HasSetAside};
ghost use Rattle.k_map_plans.specs.Landings.{IsLandingPlan, MayLand, WantsToLand};
ghost use Rattle.k_map_plans.specs.LandingSteps.{AreLandingSteps, IsFileStep, chain_size, cut_up, freed_with, staging_step, steps_of};
ghost use Rattle.k_map_plans.specs.Linking.{AreLinked, left_at};
ghost use Rattle.k_map_plans.specs.Plans.{IsNotMade};
ghost use Rattle.k_map_plans.specs.Steps.{Step};

use crate::map_plans::faults::MapFault;
use crate::map_plans::linking::{Left, Linked, link_runs};
use crate::map_plans::lists::push_extents;
use crate::map_plans::steps::{Step, switch_all};
use block_counts::chains_for;
use extent_map::{Extent, ExtentMap};
use k_plans::{Batch, NewMap, Tables};
use k_split_model::{Landing, MoveRun};
use layout_model::Inode;
use std::alloc::{AllocError, Global};

// Whether a run takes blocks of the staging file.
fn is_touched(runs: &[MoveRun], staging: u32) -> bool
    ensures { result ≡ list_any (λ (r : MoveRun). r.staging == staging) runs.now }
{
    for run in runs {
        if run.staging == staging {
            return true;
        }
    }
    false
}

// The staging files that runs take blocks of, by rising number.
fn touched_by(alloc: Global, runs: &[MoveRun]) -> Result<Vec<u32>, AllocError>
    ensures { IfOk result (λ found. found.items ≡ touched runs.now) }
{
    let mut found = Vec::new(alloc);
    for place in 0..4 {
        if is_touched(runs, place + 1) {
            found.push(place + 1)?;
        }
    }
    Ok(found)
}

// The maps of a landing: that of the file, and those of the staging files.
fn landed_maps(
    alloc: Global,
    touched: &[u32],
    lefts: &[Left],
    linked: &ExtentMap,
) -> Result<Vec<ExtentMap>, AllocError>
    requires low { All (λ x. 1 ≤ x) touched.now }
    requires high { All (λ x. x ≤ length lefts.now) touched.now }
    ensures { IfOk result (λ maps.
        maps.items ≡ linked.now ∷ map (λ x. (left_at lefts.now x).map) touched.now) }
{
    let mut maps = Vec::new(alloc);
    maps.push(linked.copied(alloc)?)?;
    for staging in touched {
        let left = &lefts[(*staging - 1) as usize];
        maps.push(left.map.copied(alloc)?)?;
    }
    Ok(maps)
}

// How many blocks the chains of maps take, of which there are at most five.
fn chain_blocks(maps: &[ExtentMap]) -> u32
    requires { length maps.now ≤ 5 }
    ensures { result ≡ sum_by chain_size maps.now }
{
    let mut count = 0;
    for map in maps {
        count += chains_for(map.extents().len() as u64) as u32;
    }
    count
}

// The maps once more, in chains that have these blocks, one after the other.
fn new_maps(alloc: Global, maps: &[ExtentMap], taken: &[u32]) -> Result<Vec<NewMap>, AllocError>
    requires { sum_by chain_size maps.now ≡ length taken.now }
    ensures { IfOk result (λ news. news.items ≡ cut_up maps.now taken.now) }
{
    let mut news = Vec::new(alloc);
    let mut used = 0;
    for map in maps {
        let end = used + chains_for(map.extents().len() as u64) as usize;
        let blocks = Vec::from_slice(alloc, &taken[used..end])?;
        let map = map.copied(alloc)?;
        news.push(NewMap { blocks, map })?;
        used = end;
    }
    Ok(news)
}

// The blocks of a list, those of the chains of new maps, and those of another list.
fn blocks_with(
    alloc: Global,
    first: &[u32],
    news: &[NewMap],
    last: &[u32],
) -> Result<Vec<u32>, AllocError>
    ensures { IfOk result (λ all. all.items ≡ first.now ++ (blocks_of news.now ++ last.now)) }
{
    let mut all = Vec::from_slice(alloc, first)?;
    for new in news {
        all.extend_from_slice(&new.blocks)?;
    }
    all.extend_from_slice(last)?;
    Ok(all)
}

// What an inode goes over to, with this line, and what is set aside behind it.
fn step_to(
    alloc: Global,
    ino: u32,
    line: Inode,
    new: &NewMap,
    aside: Vec<u32>,
) -> Result<Step, AllocError>
    ensures { IfOk result (λ step. step ≡ record {
      ino = ino;
      line = line;
      map = new.now.extents;
      chain = new.now.blocks;
      aside = aside.items;
    }) }
{
    let map = new.map.copied(alloc)?;
    let chain = Vec::from_slice(alloc, &new.blocks)?;
    Ok(Step {
        ino,
        line,
        map,
        chain,
        aside,
    })
}

// The step of a staging file, behind which the blocks of `own` and of the new maps behind are taken. What
// comes free is put to what is free.
fn staging_step(
    alloc: Global,
    tables: &Tables,
    staging: u32,
    left: &Left,
    own: &[u32],
    news: &[NewMap],
    freed: &mut Vec<u32>,
) -> Result<Step, AllocError>
    requires staging { staging < length tables.now.volume.inodes }
    requires some { 0 < length news.now }
    ensures freed { OnOk result (freed.new.items
        ≡ freed_with tables.now.volume left.now staging freed.old.items) }
    ensures step { IfOk result (λ step. step ≡ staging_step tables.now.volume staging
        (new_at news.now 0) (own.now ++ (blocks_of (drop 1 news.now) ++ freed.new.items))) }
{
    freed.extend_from_slice(tables.chain(staging))?;
    freed.extend_from_slice(&left.went)?;
    let aside = blocks_with(alloc, own, &news[1..], freed)?;
    let line = tables.inodes()[staging as usize];
    step_to(alloc, staging, line, &news[0], aside)
}

// The steps of staging files, to these new maps. Behind them the blocks of `own` are taken.
fn staging_steps(
    alloc: Global,
    tables: &Tables,
    touched: &[u32],
    lefts: &[Left],
    own: &[u32],
    news: &[NewMap],
) -> Result<Vec<Step>, AllocError>
    requires low { All (λ x. 1 ≤ x) touched.now }
    requires high { All (λ x. x ≤ length lefts.now) touched.now }
    requires below { length lefts.now < length tables.now.volume.inodes }
    requires size { length news.now ≡ length touched.now }
    ensures { IfOk result (λ steps. (end : List Step) → steps.items ++ end
        ≡ steps_of tables.now.volume lefts.now own.now touched.now news.now [] end) }
{
    let mut steps = Vec::new(alloc);
    let mut freed = Vec::new(alloc);
    for place in 0..touched.len() {
        let staging = touched[place];
        let left = &lefts[(staging - 1) as usize];
        let step = staging_step(
            alloc,
            tables,
            staging,
            left,
            own,
            &news[place..],
            &mut freed,
        )?;
        steps.push(step)?;
    }
    Ok(steps)
}

// The chains of staging files, one after the other.
fn chains_of(alloc: Global, tables: &Tables, touched: &[u32]) -> Result<Vec<u32>, AllocError>
    requires { All (λ x. x < length tables.now.volume.inodes) touched.now }
    ensures { IfOk result (λ all. all.items ≡ flat_map (chain tables.now.volume) touched.now) }
{
    let mut all = Vec::new(alloc);
    for staging in touched {
        all.extend_from_slice(tables.chain(*staging))?;
    }
    Ok(all)
}

// The step of the file. Behind it the old chains are set aside, and what the file lost.
fn file_step(
    alloc: Global,
    tables: &Tables,
    asked: &Landing,
    touched: &[u32],
    new: &NewMap,
    displaced: &[Extent],
) -> Result<Step, AllocError>
    requires file { asked.now.ino < length tables.now.volume.inodes }
    requires staging { All (λ x. x < length tables.now.volume.inodes) touched.now }
    requires extents { All IsExtent displaced.now }
    ensures { IfOk result (IsFileStep tables.now.volume asked.now touched.now new.now displaced.now) }
{
    let mut aside = chains_of(alloc, tables, touched)?;
    aside.extend_from_slice(tables.chain(asked.ino))?;
    push_extents(&mut aside, displaced)?;
    let line = Inode {
        size: asked.size,
        applied: asked.applied,
        ..tables.inodes()[asked.ino as usize]
    };
    let step = step_to(alloc, asked.ino, line, new, aside)?;
    Ok(step)
}

// All steps of a landing, with these new maps, the file's first.
fn landing_steps(
    alloc: Global,
    tables: &Tables,
    asked: &Landing,
    touched: &[u32],
    linked: &Linked,
    news: &[NewMap],
) -> Result<Vec<Step>, AllocError>
    requires file { asked.now.ino < length tables.now.volume.inodes }
    requires low { All (λ x. 1 ≤ x) touched.now }
    requires high { All (λ x. x ≤ length linked.now.lefts.items) touched.now }
    requires below { length linked.now.lefts.items < length tables.now.volume.inodes }
    requires size { length news.now ≡ length touched.now + 1 }
    requires extents { All IsExtent linked.now.displaced.items }
    ensures { IfOk result (λ steps. AreLandingSteps tables.now.volume asked.now touched.now
        linked.now.lefts.items linked.now.displaced.items (new_at news.now 0) (drop 1 news.now) steps.items) }
{
    let own = &news[0];
    let mut steps = staging_steps(
        alloc,
        tables,
        touched,
        &linked.lefts,
        &own.blocks,
        &news[1..],
    )?;
    let last = file_step(alloc, tables, asked, touched, own, &linked.displaced)?;
    steps.push(last)?;
    Ok(steps)
}

// Sets blocks aside for the chains of maps, of which there are at most five.
fn set_all_aside(
    alloc: Global,
    tables: &mut Tables,
    maps: &[ExtentMap],
) -> Result<Vec<NewMap>, MapFault>
    requires { length maps.now ≤ 5 }
    ensures aside { HasSetAside tables.old tables.new }
    ensures back { OnOk result (AreKeptBack tables.old) }
    ensures few { result ≡ Err MapFault.Few → free_blocks tables.old < sum_by chain_size maps.now }
    ensures taken { IfOk result (λ news. (taken : List ℕ)
        × IsSetAside (sum_by chain_size maps.now) taken tables.old tables.new
        × (news.items ≡ cut_up maps.now taken)) }
{
    let Some(taken) = tables.set_aside(chain_blocks(maps))? else {
        return Err(MapFault::Few);
    };
    let news = new_maps(alloc, maps, &taken)?;
    Ok(news)
}

// Sets blocks for the chains of a landing aside, and lets its inodes go over to their maps. After an
// error blocks may be set aside, and nothing else is changed.
fn place_all(
    alloc: Global,
    tables: &mut Tables,
    batch: &mut Batch,
    asked: &Landing,
    linked: &Linked,
) -> Result<Vec<NewMap>, MapFault>
    requires empty { batch.old ≡ [] }
    requires idle { tables.old.aside ≡ [] }
    requires may { MayLand asked.now tables.old.volume }
    requires whole { IsWhole tables.old.volume }
    requires linked { AreLinked tables.old.volume asked.now.ino asked.now.runs
        linked.now.lefts.items linked.now.linked linked.now.displaced.items }
    ensures planned { IfOk result (λ news.
        IsLandingPlan asked.now tables.old tables.new batch.new news.items) }
    ensures few { result ≡ Err MapFault.Few
        → ((n : ℕ) × WantsToLand asked.now tables.old.volume n × (free_blocks tables.old < n))
        × (free_blocks tables.old + 3 < length asked.now.runs + reserve tables.old.volume.geometry) }
    ensures err { OnErr result (HasSetAside tables.old tables.new) }
    ensures no_lines { OnErr result (batch.new ≡ []) }
{
    let touched = touched_by(alloc, &asked.runs)?;
    let maps = landed_maps(alloc, &touched, &linked.lefts, &linked.linked)?;
    let news = set_all_aside(alloc, tables, &maps)?;
    let steps = landing_steps(alloc, tables, asked, &touched, linked, &news)?;
    switch_all(tables, batch, steps);
    Ok(news)
}

// Lands the runs on the tables. After an error blocks may be set aside, and nothing else is changed.
fn land_runs(
    alloc: Global,
    tables: &mut Tables,
    batch: &mut Batch,
    asked: &Landing,
) -> Result<Vec<NewMap>, MapFault>
    requires empty { batch.old ≡ [] }
    requires idle { tables.old.aside ≡ [] }
    requires may { MayLand asked.now tables.old.volume }
    ensures planned { IfOk result (λ news.
        IsLandingPlan asked.now tables.old tables.new batch.new news.items) }
    ensures few { result ≡ Err MapFault.Few
        → ((n : ℕ) × WantsToLand asked.now tables.old.volume n × (free_blocks tables.old < n))
        × (free_blocks tables.old + 3 < length asked.now.runs + reserve tables.old.volume.geometry) }
    ensures err { OnErr result (HasSetAside tables.old tables.new) }
    ensures no_lines { OnErr result (batch.new ≡ []) }
{
    let linked = link_runs(alloc, tables, asked)?;
    place_all(alloc, tables, batch, asked, &linked)
}

/// Plans that runs of blocks go from staging files to a file by one landing, in their order, and that
/// the file has the size and the order of its last entry then. It answers the new map of the file, and
/// behind it those of the staging files that lost blocks, by rising number. What the file lost is set
/// aside then, with the old chains. There are at most five lines.
///
/// # Errors
///
/// `Few` exactly where fewer blocks are free than the chains of the new maps take. It does not come where
/// as many are free as the runs and the reserve less 3. An error leaves tables and batch as they were.
pub fn plan_landing(
    alloc: Global,
    tables: &mut Tables,
    batch: &mut Batch,
    asked: &Landing,
) -> Result<Vec<NewMap>, MapFault>
    requires empty { batch.old ≡ [] }
    requires idle { tables.old.aside ≡ [] }
    requires may { MayLand asked.now tables.old.volume }
    ensures planned { IfOk result (λ news.
        IsLandingPlan asked.now tables.old tables.new batch.new news.items) }
    ensures err { IfErr result (IsNotMade (WantsToLand asked.now tables.old.volume)
        tables.old tables.new batch.new) }
    ensures enough { length asked.now.runs + reserve tables.old.volume.geometry ≤ free_blocks tables.old + 3
        → result ≢ Err MapFault.Few }
{
    let planned = land_runs(alloc, tables, batch, asked);
    if planned.is_err() {
        tables.release();
    }
    planned
}
