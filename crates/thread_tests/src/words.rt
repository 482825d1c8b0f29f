//! The words that need no thread, through `top` itself: other tests of commands reach them by `top_alone`.
use crate::running::{Task, files_of, put_done};
use outside::MemFiles;
use split_tables::{OpenGate, done};
use std::alloc::Global;
use std::sync::Wait;
use std::thread::Threads;
use test_kit::Text;

// The power goes behind the name, so that what is kept is not what a whole run leaves.
const SCRIPT: Task<'static> = Task {
    mode: "strict",
    image: "",
    script: "mkdir /d\nopen a /d/a wc\nwrite a 61\n",
};

const LINES: [&str; 6] = [
    "mkfs I 64 4 16 16",
    "tree I",
    "step I S strict stop 50 keep I",
    "step I S sync keep I",
    "tree I",
    "load 3 2 sync",
];

// Whether both calls do what a line says, and put the same.
fn is_same<R: Threads + Wait + Sync>(
    rt: &R,
    alloc: Global,
    files: &mut MemFiles,
    others: &mut MemFiles,
    line: &str,
) -> bool {
    let mut told = Text::new(alloc);
    put_done(&mut told, rt, alloc, files, line, &OpenGate {});
    let alone = done(alloc, others, line);
    told.is_whole() && alone.is_whole() && told.is(alone.as_str())
}

// The first line of which this is not so.
fn wrong_line<R: Threads + Wait + Sync>(rt: &R, alloc: Global) -> Option<&'static str> {
    let mut files = files_of(alloc, SCRIPT);
    let mut others = files_of(alloc, SCRIPT);
    for line in &LINES {
        if !is_same(rt, alloc, &mut files, &mut others, line) {
            return Some(*line);
        }
    }
    None
}

#[test]
fn words_without_threads(rt: HostRuntime) {
    assert_eq!(rt; wrong_line(&rt, rt.alloc()), None);
}
