//! A turn that passes enter in threads of their own.
ghost use Rattle.std.specs.Prelude.{◌≡◌, ◌≤◌, ◌<◌, ℕ, [], All, length, slice_index_or, None};
ghost use Rattle.ruled_turn.specs.Passes.{outside_pass};
ghost use Rattle.thread_rows.specs.Entries.{own};

use crate::appending::append_all;
use crate::entries::{EntryPass, EntryTurn};
use std::alloc::{AllocError, Global};
use std::sync::Wait;
use std::test::Fail;
use std::thread;
use std::thread::Threads;

// How often each thread enters.
const ENTRIES: u64 = 1_000;

const THREADS: u32 = 8;

// Each thread appends numbers of its own.
fn append_at_once<R: Threads + Wait + Sync>(rt: &R, turn: &EntryTurn, passes: &mut [EntryPass])
    requires few { length passes.old ≤ 8 }
    requires fresh { (k : ℕ) (d : _) → k < length passes.old
        → slice_index_or passes.old k d ≡ outside_pass turn.now.id k (own []) }
    ensures turn { All (λ p. p.turn ≡ turn.now.id) passes.new }
    ensures outside { All (λ p. p.inside ≡ None) passes.new }
{
    thread::for_each_mut(
        rt,
        passes,
        8,
        &|k: usize, pass: &mut EntryPass|
            requires { (k < 8) × (pass.now ≡ outside_pass turn.now.id k (own [])) }
            ensures { (pass.exit.now.turn ≡ turn.entry.now.id) × (pass.exit.now.inside ≡ None) }
        {
            append_all(rt, turn, pass, k as u32, ENTRIES * k as u64, ENTRIES);
        },
    );
}

// Whether the list has each number below so many once.
fn has_each_once(alloc: Global, list: &[u64], count: usize) -> Result<bool, AllocError> {
    let mut seen = vec![in alloc; false; count]?;
    for entry in list {
        let Some(place) = seen.get_mut(*entry as usize) else {
            return Ok(false);
        };
        if *place {
            return Ok(false);
        }
        *place = true;
    }
    Ok(list.len() == count)
}

// Eight threads enter a thousand times each, and the list has each entry once.
fn eight_threads<R: Threads + Wait + Sync>(rt: &R, alloc: Global) -> Result<bool, AllocError> {
    let (turn, mut passes) = EntryTurn::open(alloc, Vec::new(alloc), THREADS)?;
    append_at_once(rt, &turn, passes.as_mut_slice());
    let list = turn.close(passes);
    has_each_once(alloc, list.as_slice(), 8_000)
}

#[test]
fn eight_threads_enter_a_thousand_times(rt: HostRuntime) -> Result<(), Fail> {
    assert!(rt; eight_threads(&rt, rt.alloc())?);
    Ok(())
}
