//! The scripts of a load, and their text.
ghost use Rattle.std.specs.Prelude.{◌≡◌, ◌≤◌, ◌<◌, ◌+◌, ◌*◌, ℕ, IfOk, map};
ghost use Rattle.std.specs.List.{range_with_len};
ghost use Rattle.crash_spec.specs.Orders.{draw};
ghost use Rattle.split_cases.specs.Drawn.{AreDrawn};
ghost use Rattle.split_cases.specs.Load.{load_calls, load_open, load_scripts, load_seed, load_text};

use crate::calls::{load_call, load_open};
use posix_types::{Call, CallList, Scripts};
use rand_core::SeedableRng;
use rand_core::utils::NextWord;
use rand_xoshiro::SplitMix64;
use report_text::scripts_text;
use std::alloc::{AllocError, Global};

/// The next draw.
#[tactic(auto, unfolding(crash_spec::specs::Orders::draw))]
fn next_draw(draws: &mut SplitMix64) -> u64
    ensures drawn { result ≡ draw draws.old 0 }
    ensures after { (k : ℕ) → draw draws.new k ≡ draw draws.old (k + 1) }
{
    draws.next_word()
}

/// So many calls of a thread, by the next draws.
fn drawn_calls(
    alloc: Global,
    n: u32,
    t: u32,
    draws: &mut SplitMix64,
) -> Result<CallList, AllocError>
    requires { t < 8 }
    ensures { IfOk result (λ list. AreDrawn draws.old draws.new n t list) }
{
    let mut calls: Vec<Call> = Vec::new(alloc);
    for i in 0..n {
        let r = next_draw(draws);
        calls.push(load_call(alloc, t, r)?)?;
    }
    Ok(CallList { calls })
}

/// The calls of the set-up: each thread's file is opened.
fn opened(alloc: Global, threads: u32) -> Result<CallList, AllocError>
    requires { threads ≤ 8 }
    ensures { IfOk result (λ list. list ≡ map load_open (range_with_len 0 threads)) }
{
    let mut calls: Vec<Call> = Vec::new(alloc);
    for t in 0..threads {
        calls.push(load_open(alloc, t)?)?;
    }
    Ok(CallList { calls })
}

/// The calls of the threads.
fn drawn_threads(alloc: Global, n: u32, threads: u32) -> Result<Vec<CallList>, AllocError>
    requires few { n ≤ 500 }
    requires threads { threads ≤ 8 }
    ensures { IfOk result (λ lists. lists.items ≡ map (load_calls n threads) (range_with_len 0 threads)) }
{
    let mut draws = SplitMix64::seed_from_u64(u64::from(16 * n + threads));
    let mut lists: Vec<CallList> = Vec::new(alloc);
    for t in 0..threads {
        lists.push(drawn_calls(alloc, n, t, &mut draws)?)?;
    }
    Ok(lists)
}

/// The scripts of a load of so many calls, at most 500, for each of so many threads, at most 8. An error is out of memory,
/// and leaves nothing.
pub fn load_scripts(alloc: Global, n: u32, threads: u32) -> Result<Scripts, AllocError>
    requires few { n ≤ 500 }
    requires threads { threads ≤ 8 }
    ensures { IfOk result (λ scripts. scripts ≡ load_scripts n threads) }
{
    let setup = opened(alloc, threads)?;
    let threads = drawn_threads(alloc, n, threads)?;
    Ok(Scripts { setup, threads })
}

/// The text of these scripts. An error is out of memory, and leaves nothing.
pub fn load_script(alloc: Global, n: u32, threads: u32) -> Result<Vec<u8>, AllocError>
    requires few { n ≤ 500 }
    requires threads { threads ≤ 8 }
    ensures { IfOk result (λ text. text.items ≡ load_text n threads) }
{
    let scripts = load_scripts(alloc, n, threads)?;
    scripts_text(alloc, &scripts)
}
