//! A run by threads, round by round.
ghost use Rattle.std.specs.Prelude.{IfOk};
ghost use Rattle.thread_laws.specs.world_view_laws.Views.{WorldView};
ghost use Rattle.split_threads.specs.Ends.{IsEndedByThreads, IsFirst};
ghost use Rattle.split_threads.specs.Rounds.{IsBetweenRounds, IsRoundDone};

use crate::closes::{Turned, end_round};
use crate::dealing::power_for;
use crate::gates::Gate;
use crate::opening::open_round;
use crate::starting::work_round;
use crate::working::Shared;
use pm_lines::Power;
use split_world::{Ended, World};
use std::alloc::Global;
use std::sync::Wait;
use std::thread::Threads;
use thread_laws::NoMemory;

// A round: it is opened, all workers do their parts and are joined, and it ends.
fn round<R: Threads + Wait + Sync, G: Gate + Sync>(
    rt: &R,
    alloc: Global,
    world: World,
    power: Power,
    stop: Option<u64>,
    gate: &G,
) -> Result<Turned, NoMemory>
    requires between { (first : WorldView) × IsBetweenRounds first stop world power }
    ensures { (first : WorldView) → IsBetweenRounds first stop world power → IfOk result (IsRoundDone first stop) }
{
    let opened = open_round(alloc, world, power, stop)?;
    let shared = Shared {
        turn: opened.turn,
        log: opened.log,
    };
    let Ok(backs) = work_round(rt, alloc, &shared, gate, opened.dealt) else {
        drop(shared);
        return Err(NoMemory {});
    };
    end_round(alloc, shared.turn, shared.log, backs)
}

/// Runs the scripts of a World that was just mounted by threads of the machine: the set-up by the caller, then a worker for
/// each thread's script, in rounds that are joined before each Checkpoint. Which of the calls return first is the threads'
/// choice. With `stop` the World has so many device steps for the whole run, and the set-up and each worker as many of their
/// own in each round; whoever runs out ends the run for all. The gate is called by the workers of threads, outside the turn:
/// before each append to the log, and behind each that was Done.
///
/// Whole without `stop`. Lost comes only with one, of at most 2^31 steps for each call that returned and for two more.
///
/// It may wait, and holds what it says if it returns. A thread that cannot be started is no error: its work is done here.
///
/// # Errors
///
/// Out of memory: the World is dropped.
pub fn run<R: Threads + Wait + Sync, G: Gate + Sync>(
    rt: &R,
    alloc: Global,
    world: World,
    stop: Option<u64>,
    gate: &G,
) -> Result<Ended, NoMemory>
    requires first { IsFirst world }
    ensures { IfOk result (IsEndedByThreads world stop) }
{
    let mut world = world;
    let mut power = power_for(stop);
    for _ in rt.forever() {
        let turned = round(rt, alloc, world, power, stop, gate)?;
        match turned {
            Turned::Next(next, left) => {
                world = next;
                power = left;
            }
            Turned::Ended(ended) => return Ok(ended),
        }
    }
    unreachable!()
}
