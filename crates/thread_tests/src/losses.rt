//! A thread, and a set-up, of which the own power goes. Eight blocks are filled in eight times 577 steps of the one that fills them.
use crate::running::{Task, calls_in, is_permitted, ran_at};
use split_tables::CHOICES;
use std::alloc::Global;
use std::sync::Wait;
use std::thread::Threads;
use test_kit::Text;

// Thread 0 has not the steps for its only write, the others have those for two.
const ONE_THREAD: Task<'static> = Task {
    mode: "strict",
    image: "",
    script: "\
setup
open w /w wc
open x /x wc
open y /y wc
open z /z wc
thread
write w 61*32768
thread
write x 62
write x 62
thread
write y 63
write y 63
thread
write z 64
write z 64
",
};

// The steps of each.
const STEPS: u64 = 2_000;

// Whether an output has the set-up's four lines, none of thread 0, and at most those of the other threads.
fn has_others(output: &Text) -> bool {
    for line in output.as_str().lines() {
        if line.starts_with("0.") {
            return false;
        }
    }
    let calls = calls_in(output);
    (4..11).contains(&calls)
}

// The first choice with which something is wrong.
fn wrong_choice<R: Threads + Wait + Sync>(rt: &R, alloc: Global) -> Option<&'static str> {
    for choice in &CHOICES {
        let output = ran_at(rt, alloc, ONE_THREAD, STEPS, choice);
        if !has_others(&output) || !is_permitted(alloc, ONE_THREAD, &output) {
            return Some(*choice);
        }
    }
    None
}

#[test]
fn the_power_of_a_thread_goes_while_others_run(rt: HostRuntime) {
    assert_eq!(rt; wrong_choice(&rt, rt.alloc()), None);
}

// The set-up has not the steps for its write: no thread starts, and what was filled is not in the log.
const SETUP: Task<'static> = Task {
    mode: "strict",
    image: "",
    script: "\
setup
open a /f wc
write a 61*32768
thread
write a 62
thread
write a 63
",
};

const LEFT: &str = "\
s.0 open a /f wc = fd 0
/ dir
/f file 0
";

fn is_setup_lost<R: Threads + Wait + Sync>(rt: &R, alloc: Global) -> bool {
    ran_at(rt, alloc, SETUP, STEPS, "newest").is(LEFT)
        && ran_at(rt, alloc, SETUP, STEPS, "oldest").is(LEFT)
}

#[test]
fn the_power_of_the_set_up_goes(rt: HostRuntime) {
    assert!(rt; is_setup_lost(&rt, rt.alloc()));
}
