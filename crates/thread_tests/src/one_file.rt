//! Two threads append 100 records each to one file, and a write is read back.
use crate::running::{ENOUGH, Task, calls_in, is_permitted, is_whole, ran, ran_at};
use crate::writing::put_thread;
use split_tables::CHOICES;
use std::alloc::Global;
use std::sync::Wait;
use std::thread::Threads;
use test_kit::Text;

// How many records each thread appends.
const EACH: u64 = 100;

// The records of the two threads.
const RECORDS: [&str; 2] = ["41414141", "42424242"];

fn put_script(script: &mut Text, alloc: Global) {
    script.put("setup\nopen a /log wac\n");
    for record in &RECORDS {
        let mut line = Text::new(alloc);
        line.put("write a ");
        line.put(record);
        line.put("\n");
        put_thread(script, line.as_str(), EACH);
    }
}

fn script(alloc: Global) -> Text {
    let mut script = Text::new(alloc);
    put_script(&mut script, alloc);
    script
}

// The script, in strict mode on the default image.
fn task(script: &Text) -> Task<'_> {
    Task {
        mode: "strict",
        image: "",
        script: script.as_str(),
    }
}

// The record that a printed line wrote; none of the set-up and of the tree.
fn record_of(line: &str) -> &'static str {
    if line.starts_with("0.") {
        return RECORDS[0];
    }
    if line.starts_with("1.") {
        return RECORDS[1];
    }
    ""
}

// Adds the tree that has all records in the order of the printed lines.
fn put_tree(tree: &mut Text, output: &str) {
    tree.put("/ dir\n/log file 800 ");
    for line in output.lines() {
        tree.put(record_of(line));
    }
    tree.put("\n");
}

// Whether all 200 records are there, none of them torn, in the order of the printed lines.
fn are_in_order(alloc: Global, output: &Text) -> bool {
    let mut tree = Text::new(alloc);
    put_tree(&mut tree, output.as_str());
    output.is_whole()
        && tree.is_whole()
        && calls_in(output) == 201
        && output.as_str().ends_with(tree.as_str())
}

// Whether an output is that of all 200 writes.
fn is_of_all(alloc: Global, script: &Text, output: &Text) -> bool {
    is_whole(alloc, task(script), output) && are_in_order(alloc, output)
}

fn is_right_freely<R: Threads + Wait + Sync>(rt: &R, alloc: Global) -> bool {
    let script = script(alloc);
    let output = ran(rt, alloc, task(&script), "");
    is_of_all(alloc, &script, &output)
}

#[test]
fn two_threads_one_log_file(rt: HostRuntime) {
    assert!(rt; is_right_freely(&rt, rt.alloc()));
}

// ---- with stops

// A number of steps, and how many lines are printed at most. A file is made in 48 steps. A thread fills a block in 577 steps of its own
// and appends in 10, so that with 1,000 no thread returns a second write.
const STOPS: [(u64, usize); 5] = [(0, 0), (1, 0), (10, 0), (100, 1), (1_000, 3)];

// Whether what is left with so many steps is permitted, and no more lines are printed than these.
fn is_right_at<R: Threads + Wait + Sync>(
    rt: &R,
    alloc: Global,
    script: &Text,
    stop: (u64, usize),
    choice: &str,
) -> bool {
    let (steps, most) = stop;
    let output = ran_at(rt, alloc, task(script), steps, choice);
    is_permitted(alloc, task(script), &output) && calls_in(&output) <= most
}

// Likewise with each choice.
fn is_right_with_each<R: Threads + Wait + Sync>(
    rt: &R,
    alloc: Global,
    script: &Text,
    stop: (u64, usize),
) -> bool {
    for choice in &CHOICES {
        if !is_right_at(rt, alloc, script, stop, choice) {
            return false;
        }
    }
    true
}

// The first number of steps with which something is wrong.
fn wrong_stop<R: Threads + Wait + Sync>(rt: &R, alloc: Global) -> Option<u64> {
    let script = script(alloc);
    for stop in &STOPS {
        if !is_right_with_each(rt, alloc, &script, *stop) {
            return Some(stop.0);
        }
    }
    None
}

#[test]
fn two_threads_with_few_steps(rt: HostRuntime) {
    assert_eq!(rt; wrong_stop(&rt, rt.alloc()), None);
}

// Without a step nothing is printed but the root.
fn is_right_without_steps<R: Threads + Wait + Sync>(rt: &R, alloc: Global) -> bool {
    let script = script(alloc);
    ran_at(rt, alloc, task(&script), 0, "newest").is("/ dir\n")
}

#[test]
fn two_threads_without_a_step(rt: HostRuntime) {
    assert!(rt; is_right_without_steps(&rt, rt.alloc()));
}

fn is_right_with_enough<R: Threads + Wait + Sync>(rt: &R, alloc: Global) -> bool {
    let script = script(alloc);
    let output = ran_at(rt, alloc, task(&script), ENOUGH, "oldest");
    is_of_all(alloc, &script, &output)
}

#[test]
fn two_threads_with_enough_steps(rt: HostRuntime) {
    assert!(rt; is_right_with_enough(&rt, rt.alloc()));
}

// ---- a write that is read back

const READ_BACK: Task<'static> = Task {
    mode: "strict",
    image: "",
    script: "open a /f rwc\nwrite a 6869\nseek a set 0\nread a 9\n",
};

const ANSWERS: &str = "\
0.0 open a /f rwc = fd 0
0.1 write a 6869 = count 2
0.2 seek a set 0 = offset 0
0.3 read a 9 = data 6869
/ dir
/f file 2 6869
";

fn is_read_back<R: Threads + Wait + Sync>(rt: &R, alloc: Global) -> bool {
    ran(rt, alloc, READ_BACK, "").is(ANSWERS)
        && ran_at(rt, alloc, READ_BACK, ENOUGH, "oldest").is(ANSWERS)
}

#[test]
fn a_write_is_read_back(rt: HostRuntime) {
    assert!(rt; is_read_back(&rt, rt.alloc()));
}
