//! A thread that leaves a turn wakes one that sleeps, once the turn is free.
//!
//! Eight threads come to a turn, and the first one inside stays until the others sleep. Then each that leaves has to wake the next: nobody
//! else comes who could, since all look for one another before they come again. The value takes longer to be put back than a thread to
//! wake, so that one who is woken too early finds the turn taken, and sleeps for ever.
ghost use Rattle.std.specs.Prelude.{◌≡◌, ◌≤◌, ℕ, Bool, All, length, None};
ghost use Rattle.ruled_turn.specs.Passes.{outside_pass};

use crate::heavies::{Heavy, HeavyPass, HeavyTurn};
use std::alloc::{AllocError, Global};
use std::sync::Wait;
use std::sync::atomic::AtomicU64;
use std::sync::atomic::Ordering::SeqCst;
use std::test::Fail;
use std::thread;
use std::thread::{Threads, sleep, yield_now};
use std::time::{Clock, Duration};

const THREADS: u32 = 8;

// How often each thread enters.
const ROUNDS: u64 = 300;

// How often a thread looks for the others at most, each time that it does.
const LOOKS: u64 = 20_000_000;

// The microseconds in which the others fall asleep.
const STAYS: u64 = 100;

// How many times threads came to the turn, and how many times they left it.
#[derive(Drop)]
struct Counts {
    came: AtomicU64,
    left: AtomicU64,
}

// Looks until so many are counted. Says whether they are.
fn sees(count: &AtomicU64, wanted: u64) -> bool {
    for _look in 0..LOOKS {
        if count.load(SeqCst) >= wanted {
            return true;
        }
        yield_now();
    }
    false
}

// Stays inside until all threads of a round have come; the first one until they sleep.
fn stay<C: Clock>(clock: &C, counts: &Counts, before: u64) {
    let _all = sees(&counts.came, before.wrapping_add(8));
    if counts.left.load(SeqCst) == before {
        sleep(clock, Duration::from_micros(STAYS));
    }
}

// Enters, stays and leaves.
fn hold<R: Wait + Clock>(
    rt: &R,
    turn: &HeavyTurn,
    pass: &mut HeavyPass,
    counts: &Counts,
    before: u64,
)
    requires { (i : ℕ) × (v : Bool) × (pass.old ≡ outside_pass turn.now.id i v) }
    ensures { pass.new ≡ pass.old }
{
    let value = turn.enter(rt, pass);
    stay(rt, counts, before);
    turn.leave(pass, value);
}

// One thread's part of a round. Says whether all have left.
fn come<R: Wait + Clock>(
    rt: &R,
    turn: &HeavyTurn,
    pass: &mut HeavyPass,
    counts: &Counts,
    before: u64,
) -> bool
    requires { (i : ℕ) × (v : Bool) × (pass.old ≡ outside_pass turn.now.id i v) }
    ensures { pass.new ≡ pass.old }
{
    counts.came.fetch_add(1, SeqCst);
    hold(rt, turn, pass, counts, before);
    counts.left.fetch_add(1, SeqCst);
    sees(&counts.left, before.wrapping_add(8))
}

// One thread's part of each round. It stops where others do not leave.
fn come_each<R: Wait + Clock>(rt: &R, turn: &HeavyTurn, pass: &mut HeavyPass, counts: &Counts)
    requires { (i : ℕ) × (v : Bool) × (pass.old ≡ outside_pass turn.now.id i v) }
    ensures { pass.new ≡ pass.old }
{
    for round in 0..ROUNDS {
        if !come(rt, turn, pass, counts, 8 * round) {
            return;
        }
    }
}

// All threads at once.
fn come_at_once<R: Threads + Wait + Sync + Clock>(
    rt: &R,
    turn: &HeavyTurn,
    passes: &mut [HeavyPass],
    counts: &Counts,
)
    requires few { length passes.old ≤ 8 }
    requires outside { All (λ p. (i : ℕ) × (v : Bool) × (p ≡ outside_pass turn.now.id i v)) passes.old }
    ensures turn { All (λ p. p.turn ≡ turn.now.id) passes.new }
    ensures outside { All (λ p. p.inside ≡ None) passes.new }
{
    thread::for_each_mut(
        rt,
        passes,
        8,
        &|_k: usize, pass: &mut HeavyPass|
            requires { (i : ℕ) × (v : Bool) × (pass.now ≡ outside_pass turn.now.id i v) }
            ensures { (pass.exit.now.turn ≡ turn.entry.now.id) × (pass.exit.now.inside ≡ None) }
        { come_each(rt, turn, pass, counts) },
    );
}

// How many times the threads left the turn.
fn times_left<R: Threads + Wait + Sync + Clock>(rt: &R, alloc: Global) -> Result<u64, AllocError> {
    let counts = Counts {
        came: AtomicU64::new(0),
        left: AtomicU64::new(0),
    };
    let (turn, mut passes) = HeavyTurn::open(alloc, Heavy { words: [0; 32_768] }, THREADS)?;
    come_at_once(rt, &turn, passes.as_mut_slice(), &counts);
    let _value = turn.close(passes);
    Ok(counts.left.load(SeqCst))
}

#[test]
fn who_leaves_wakes_one_that_sleeps(rt: HostRuntime) -> Result<(), Fail> {
    assert_eq!(rt; times_left(&rt, rt.alloc())?, 2_400);
    Ok(())
}
