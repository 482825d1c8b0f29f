//! The longest script: eight threads in turn, each with a file of its own, 4,096 calls with those of the set-up.
use outside::{Files, MemFiles};
use split_tables::answer;
use std::alloc::Global;
use test_kit::Text;

// How many writes each thread has: 8 times 511, and 8 calls of the set-up.
const EACH: u64 = 511;

// The numbers of the threads.
const THREADS: [&str; 8] = ["0", "1", "2", "3", "4", "5", "6", "7"];

// Adds a line with the number of a thread in the place of each `#`.
fn put_line(text: &mut Text, line: &str, thread: &str) {
    let mut is_first = true;
    for part in line.split('#') {
        if !is_first {
            text.put(thread);
        }
        is_first = false;
        text.put(part);
    }
}

// Adds a line for each thread.
fn put_each(text: &mut Text, line: &str) {
    for thread in &THREADS {
        put_line(text, line, thread);
    }
}

// Adds the lines of a thread.
fn put_thread(script: &mut Text, thread: &str) {
    script.put("thread\n");
    for _call in 0..EACH {
        put_line(script, "write h# 6#\n", thread);
    }
}

fn put_script(script: &mut Text) {
    script.put("setup\n");
    put_each(script, "open h# /f# wc\n");
    for thread in &THREADS {
        put_thread(script, thread);
    }
}

// Adds what the threads print of their writes, which return in turn, also where the log of 64 lines is full: behind each eight of a
// thread.
fn put_turns(text: &mut Text, alloc: Global) {
    for call in 0..EACH {
        let mut line = Text::new(alloc);
        line.put("#.");
        line.put_number(call);
        line.put(" write h# 6# = count 1\n");
        put_each(text, line.as_str());
    }
}

// What is printed.
fn wanted(alloc: Global) -> Text {
    let mut text = Text::new(alloc);
    put_each(&mut text, "s.# open h# /f# wc = fd #\n");
    put_turns(&mut text, alloc);
    text.put("/ dir\n");
    put_each(&mut text, "/f# file 511 6#*511\n");
    text
}

// What is told of a command over the script.
fn told(alloc: Global, line: &str) -> Text {
    let mut files = MemFiles::new(alloc, Vec::new(alloc), Vec::new(alloc));
    let mut script = Text::new(alloc);
    put_script(&mut script);
    let _is_there = files.replace("S", script.as_str().as_bytes());
    answer(alloc, &mut files, line)
}

// Whether what is told of a run in turn is what is wanted.
fn is_as_wanted(alloc: Global) -> bool {
    let wanted = wanted(alloc);
    told(alloc, "step - S strict").is_same(&wanted)
}

#[test]
fn most_calls_of_eight_threads(rt: HostRuntime) {
    assert!(rt; is_as_wanted(rt.alloc()));
}

// Whether a run has as many bytes as another one, not the same ones, and the same tree.
fn is_other_order(came: &str, wanted: &str) -> bool {
    let tree = wanted.split("/ dir").last().unwrap_or("");
    came.len() == wanted.len() && came != wanted && !tree.is_empty() && came.ends_with(tree)
}

// With draws from a seed the calls return in another order, and there are as many; the last lines are those of the tree.
fn is_seed_as_wanted(alloc: Global) -> bool {
    let wanted = wanted(alloc);
    let came = told(alloc, "step - S strict seed 40");
    is_other_order(came.as_str(), wanted.as_str())
}

#[test]
fn most_calls_by_a_seed(rt: HostRuntime) {
    assert!(rt; is_seed_as_wanted(rt.alloc()));
}
