//! Staged runs laid over each other, beside the plain list of them, which is gone through from its end.
ghost use Rattle.std.specs.Prelude.{◌<◌, ◌≤◌};

use file_overlay::{Overlay, Run};
use std::alloc::Global;
use std::test::Fail;
use test_kit::{Draws, RowError};

const RUNS: u64 = 400;

const SEED: u64 = 20261130;

// A run of up to eight blocks of the first 71, of none too.
fn drawn_run(draws: &mut Draws, order: u64) -> Run
    ensures file_block { result.file_block < 64 }
    ensures staging_block { result.staging_block < 56 }
    ensures count { result.count < 9 }
{
    Run {
        file_block: draws.below(64),
        staging: 1 + draws.below(4),
        staging_block: draws.below(56),
        count: draws.below(9),
        order,
    }
}

// The place that the last run gives a block, of those that have it.
fn last_place(runs: &[Run], block: u32) -> Option<(u32, u32)> {
    for run in runs.iter().rev() {
        if run.file_block <= block && block - run.file_block < run.count {
            let place = run.staging_block.wrapping_add(block - run.file_block);
            return Some((run.staging, place));
        }
    }
    None
}

// Whether each of the first 80 blocks is found at the place that the list gives it.
fn finds_the_same(overlay: &Overlay, runs: &[Run]) -> bool {
    for block in 0..80 {
        if overlay.find(block) != last_place(runs, block) {
            return false;
        }
    }
    true
}

// Lays a run over the others, and adds it to the list. Whether each block is found as in the list.
fn lay_both(overlay: &mut Overlay, runs: &mut Vec<Run>, run: Run) -> Result<bool, RowError>
    requires file_block { run.file_block < 64 }
    requires staging_block { run.staging_block < 56 }
    requires count { run.count < 9 }
{
    overlay.reserve()?;
    overlay.lay(run);
    runs.push(run)?;
    Ok(finds_the_same(overlay, runs))
}

// Lays a drawn run; behind each hundredth both are cleared.
fn lay_drawn(
    overlay: &mut Overlay,
    runs: &mut Vec<Run>,
    draws: &mut Draws,
    order: u64,
) -> Result<bool, RowError> {
    let is_same = lay_both(overlay, runs, drawn_run(draws, order))?;
    if order % 100 == 99 {
        overlay.clear();
        runs.clear();
    }
    Ok(is_same)
}

// The first run behind which a block is found otherwise than in the list.
fn first_unlike(overlay: &mut Overlay, runs: &mut Vec<Run>) -> Result<Option<u64>, RowError> {
    let mut draws = Draws::new(SEED);
    for order in 0..RUNS {
        if !lay_drawn(overlay, runs, &mut draws, order)? {
            return Ok(Some(order));
        }
    }
    Ok(None)
}

fn unlike(alloc: Global) -> Result<Option<u64>, RowError> {
    let mut overlay = Overlay::new(alloc);
    let mut runs = Vec::new(alloc);
    first_unlike(&mut overlay, &mut runs)
}

#[test]
fn drawn_runs_are_found_as_in_the_list(rt: HostRuntime) -> Result<(), Fail> {
    assert_eq!(rt; unlike(rt.alloc())?, None);
    Ok(())
}
