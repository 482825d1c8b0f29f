//! Eight threads on one file and on eight, also over a log of four lines, of which each four appends are a round.
use crate::running::{Task, ran, runs_whole, wrong_stop};
use crate::writing::{put_line, put_thread};
use std::alloc::Global;
use std::sync::Wait;
use std::thread::Threads;
use test_kit::Text;

// How many writes each thread has.
const EACH: u64 = 10;

// Small, with a log of four lines.
const FOUR_LINES: &str = "64 4 16 16";

// The numbers of the threads.
const THREADS: [&str; 8] = ["0", "1", "2", "3", "4", "5", "6", "7"];

// Of eight threads on one file, and on eight, `#` is the thread's number: the line of each in the set-up, and in its thread.
const ONE_FILE: (&str, &str) = ("open h# /f wac\n", "write h# 6#6#\n");

const EIGHT_FILES: (&str, &str) = ("open h# /f# wc\n", "write h# 6#6#\n");

// Adds the part of a thread.
fn put_part(script: &mut Text, alloc: Global, line: &str, thread: &str) {
    let mut text = Text::new(alloc);
    put_line(&mut text, line, thread);
    put_thread(script, text.as_str(), EACH);
}

fn put_script(script: &mut Text, alloc: Global, lines: (&str, &str)) {
    script.put("setup\n");
    for thread in &THREADS {
        put_line(script, lines.0, thread);
    }
    for thread in &THREADS {
        put_part(script, alloc, lines.1, thread);
    }
}

// Whether no call of a whole run is refused.
fn is_never_refused<R: Threads + Wait + Sync>(rt: &R, alloc: Global, task: Task<'_>) -> bool {
    let output = ran(rt, alloc, task, "");
    output.is_whole() && !output.as_str().contains("ENOSPC")
}

// Whether the threads' run is whole, and the first stop that is wrong.
fn told<R: Threads + Wait + Sync>(
    rt: &R,
    alloc: Global,
    lines: (&str, &str),
    image: &str,
) -> (bool, Option<u64>) {
    let mut script = Text::new(alloc);
    put_script(&mut script, alloc, lines);
    let task = Task {
        mode: "strict",
        image,
        script: script.as_str(),
    };
    let is_right = runs_whole(rt, alloc, task) && is_never_refused(rt, alloc, task);
    (is_right, wrong_stop(rt, alloc, task, 500, 88))
}

#[test]
fn eight_threads_on_one_file(rt: HostRuntime) {
    assert_eq!(rt; told(&rt, rt.alloc(), ONE_FILE, ""), (true, None));
}

#[test]
fn eight_threads_on_eight_files(rt: HostRuntime) {
    assert_eq!(rt; told(&rt, rt.alloc(), EIGHT_FILES, ""), (true, None));
}

#[test]
fn eight_threads_on_one_file_over_four_lines(rt: HostRuntime) {
    assert_eq!(rt; told(&rt, rt.alloc(), ONE_FILE, FOUR_LINES), (true, None));
}

#[test]
fn eight_threads_on_eight_files_over_four_lines(rt: HostRuntime) {
    assert_eq!(rt;
        told(&rt, rt.alloc(), EIGHT_FILES, FOUR_LINES),
        (true, None)
    );
}

// ---- the longest script

// How many writes each thread has there: 8 times 511, and 8 calls of the set-up.
const MOST: u64 = 511;

// Adds the part of a thread.
fn put_most(script: &mut Text, alloc: Global, thread: &str) {
    let mut text = Text::new(alloc);
    put_line(&mut text, "write h# 6#\n", thread);
    put_thread(script, text.as_str(), MOST);
}

fn put_longest(script: &mut Text, alloc: Global) {
    script.put("setup\n");
    for thread in &THREADS {
        put_line(script, "open h# /f# wc\n", thread);
    }
    for thread in &THREADS {
        put_most(script, alloc, thread);
    }
}

// The tree that it leaves, whichever thread is first.
fn put_tree(tree: &mut Text) {
    tree.put("/ dir\n");
    for thread in &THREADS {
        put_line(tree, "/f# file 511 6#*511\n", thread);
    }
}

// Whether an output has all lines, the last ones those of the tree.
fn is_longest(output: &Text, tree: &Text) -> bool {
    output.is_whole()
        && tree.is_whole()
        && output.as_str().ends_with(tree.as_str())
        && output.as_str().lines().count() == 4_096 + 9
}

fn is_longest_right<R: Threads + Wait + Sync>(rt: &R, alloc: Global) -> bool {
    let mut script = Text::new(alloc);
    put_longest(&mut script, alloc);
    let mut tree = Text::new(alloc);
    put_tree(&mut tree);
    let task = Task {
        mode: "strict",
        image: "",
        script: script.as_str(),
    };
    is_longest(&ran(rt, alloc, task, ""), &tree)
}

#[test]
fn most_calls_of_eight_threads(rt: HostRuntime) {
    assert!(rt; is_longest_right(&rt, rt.alloc()));
}
