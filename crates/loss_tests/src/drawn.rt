//! Scripts of one thread and of two that are drawn from a seed, and power losses of them.
//!
//! A script is run by the top call on an image of its own. What it prints, and the tree of the image that it leaves, must be
//! what the plain model of the calls says. Then it runs with power losses, each after a drawn number of steps and with a
//! drawn seed for what the medium has; what is left must be permitted.
use crate::drawing::{put_calls, put_changes, put_threads};
use split_tables::{Case, Stops, is_permitted};
use std::alloc::Global;
use test_kit::{Draws, Text};

// How many calls a script has, and how many losses of it are tried.
const CALLS: u64 = 300;

const LOSSES: u64 = 50;

const IMAGE: &str = "256 64 64 128";

// Whether a drawn loss leaves what is permitted.
fn is_loss_right(alloc: Global, case: &Case, draws: &mut Draws, last: u64) -> bool {
    let steps = draws.up_to(last);
    let mut choice = Text::new(alloc);
    choice.put_number(u64::from(draws.below(1_000_000)));
    is_permitted(alloc, case, steps, choice.as_str())
}

// The first of the drawn losses that leaves something forbidden, counted from 0.
fn wrong_loss(alloc: Global, case: &Case, draws: &mut Draws) -> Option<u64> {
    let last = Stops::of_all(alloc, case, 0, 1).map_or(0, |stops| stops.last);
    for loss in 0..LOSSES {
        if last == 0 || !is_loss_right(alloc, case, draws, last) {
            return Some(loss);
        }
    }
    None
}

// The first of the losses of a script that goes wrong; the number of them, where the run does.
fn wrong_in(alloc: Global, case: &Case, draws: &mut Draws) -> Option<u64> {
    if case.runs_as_told(alloc) {
        wrong_loss(alloc, case, draws)
    } else {
        Some(LOSSES)
    }
}

// Likewise of a script in a mode, with an order where it has two threads.
fn wrong_of(
    alloc: Global,
    mode: &str,
    script: &Text,
    order: &Text,
    draws: &mut Draws,
) -> Option<u64> {
    match Case::ordered(alloc, mode, IMAGE, script.as_str(), order.as_str()) {
        Ok(case) if script.is_whole() && order.is_whole() => wrong_in(alloc, &case, draws),
        _ => Some(LOSSES),
    }
}

// Likewise of the script of a seed in a mode.
fn wrong_of_seed(alloc: Global, mode: &str, seed: u64) -> Option<u64> {
    let mut draws = Draws::new(seed);
    let mut script = Text::new(alloc);
    put_calls(&mut script, &mut draws, CALLS);
    wrong_of(alloc, mode, &script, &Text::new(alloc), &mut draws)
}

// Likewise of the script of two threads, which are picked by draws from the same seed.
fn wrong_of_two(alloc: Global, mode: &str, seed: u64) -> Option<u64> {
    let mut draws = Draws::new(seed);
    let mut script = Text::new(alloc);
    put_threads(&mut script, &mut draws, CALLS / 2);
    let mut order = Text::new(alloc);
    order.put("seed ");
    order.put_number(seed);
    wrong_of(alloc, mode, &script, &order, &mut draws)
}

// Whether so many drawn changes of names go as the model says, on an image of 64 inode lines.
fn are_changes_right(alloc: Global, seed: u64, changes: u64) -> bool {
    let mut script = Text::new(alloc);
    put_changes(&mut script, alloc, &mut Draws::new(seed), changes);
    match Case::new(alloc, "strict", "64 4 64 128", script.as_str()) {
        Ok(case) => script.is_whole() && case.runs_as_told(alloc),
        Err(_) => false,
    }
}

#[test]
fn losses_of_a_drawn_script(rt: HostRuntime) {
    assert_eq!(rt; wrong_of_seed(rt.alloc(), "strict", 20_261_128), None);
}

#[test]
fn losses_of_another_drawn_script(rt: HostRuntime) {
    assert_eq!(rt; wrong_of_seed(rt.alloc(), "strict", 7), None);
}

#[test]
fn losses_of_a_drawn_script_in_sync_mode(rt: HostRuntime) {
    assert_eq!(rt; wrong_of_seed(rt.alloc(), "sync", 20_261_130), None);
}

#[test]
fn losses_of_two_drawn_scripts_in_sync_mode(rt: HostRuntime) {
    assert_eq!(rt; wrong_of_two(rt.alloc(), "sync", 43), None);
}

// A thousand changes of names on an image of 64 inode lines, which run out now and then.
#[test]
fn drawn_changes_of_names(rt: HostRuntime) {
    assert!(rt; are_changes_right(rt.alloc(), 20_261_127, 1000));
}
