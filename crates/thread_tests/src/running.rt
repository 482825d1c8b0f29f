//! The command `run` over files in memory, and whether what it prints is right.
use command_line::Status;
use outside::{Files, MemFiles, MemSink};
use split_tables::{
    CHOICES, Case, Gate, OpenGate, done, is_output_permitted, is_output_whole, top, words_of,
};
use std::alloc::Global;
use std::sync::Wait;
use std::thread::Threads;
use test_kit::{RowError, Text};

/// More steps than any run takes.
pub(crate) const ENOUGH: u64 = 999_999_999_999_999_999;

/// A script, the word of the mode in which it is run, and the numbers of its image; none of the default one.
#[derive(Clone, Copy)]
pub(crate) struct Task<'a> {
    pub(crate) mode: &'a str,
    pub(crate) image: &'a str,
    pub(crate) script: &'a str,
}

/// Adds what a command puts over these files by this gate. Where it is not done the text is not whole.
pub(crate) fn put_done<R: Threads + Wait + Sync, G: Gate + Sync>(
    text: &mut Text,
    rt: &R,
    alloc: Global,
    files: &mut MemFiles,
    line: &str,
    gate: &G,
) {
    let words = words_of(alloc, line);
    let mut out = MemSink::new(alloc, Vec::new(alloc));
    match top(rt, alloc, &words, files, &mut out, gate) {
        Status::Done => text.put_bytes(out.bytes()),
        _ => text.misspell(),
    }
}

// Makes the image `I` with these numbers, if there are some.
fn make(alloc: Global, files: &mut MemFiles, numbers: &str) {
    if !numbers.is_empty() {
        let mut line = Text::new(alloc);
        line.put("mkfs I ");
        line.put(numbers);
        let _line = done(alloc, files, line.as_str());
    }
}

/// The script under the name `S`, and the image, if it is one of its own, under the name `I`.
pub(crate) fn files_of(alloc: Global, task: Task<'_>) -> MemFiles {
    let mut files = MemFiles::new(alloc, Vec::new(alloc), Vec::new(alloc));
    make(alloc, &mut files, task.image);
    let _is_there = files.replace("S", task.script.as_bytes());
    files
}

// The words `run IMAGE S MODE`, with these options behind them.
fn put_run(line: &mut Text, task: Task<'_>, options: &str) {
    line.put(if task.image.is_empty() {
        "run - S "
    } else {
        "run I S "
    });
    line.put(task.mode);
    line.put(options);
}

/// What the script prints that is run by threads with these options, each word with a blank in front, and by this gate.
pub(crate) fn ran_by<R: Threads + Wait + Sync, G: Gate + Sync>(
    rt: &R,
    alloc: Global,
    task: Task<'_>,
    options: &str,
    gate: &G,
) -> Text {
    let mut files = files_of(alloc, task);
    let mut line = Text::new(alloc);
    put_run(&mut line, task, options);
    let mut text = Text::new(alloc);
    put_done(&mut text, rt, alloc, &mut files, line.as_str(), gate);
    text
}

/// Likewise by a gate that does nothing.
pub(crate) fn ran<R: Threads + Wait + Sync>(
    rt: &R,
    alloc: Global,
    task: Task<'_>,
    options: &str,
) -> Text {
    ran_by(rt, alloc, task, options, &OpenGate {})
}

/// What it prints where so many steps are given, and the medium has this choice.
pub(crate) fn ran_at<R: Threads + Wait + Sync>(
    rt: &R,
    alloc: Global,
    task: Task<'_>,
    steps: u64,
    choice: &str,
) -> Text {
    let mut options = Text::new(alloc);
    options.put(" stop ");
    options.put_number(steps);
    options.put(" choose ");
    options.put(choice);
    ran(rt, alloc, task, options.as_str())
}

// The calls of an output, and what the model says of them.
fn case_of(alloc: Global, task: Task<'_>, output: &Text) -> Result<Case, RowError> {
    Case::printed(alloc, task.mode, task.image, task.script, output.as_str())
}

/// Whether an output is that of a whole run: all calls, as the model prints them in this order, and its tree.
pub(crate) fn is_whole(alloc: Global, task: Task<'_>, output: &Text) -> bool {
    match case_of(alloc, task, output) {
        Ok(case) => is_output_whole(alloc, &case, output),
        Err(_) => false,
    }
}

/// Whether an output is that of a run which may have lost its power: calls as the model prints them in this order, and a tree that the mode
/// permits behind them.
pub(crate) fn is_permitted(alloc: Global, task: Task<'_>, output: &Text) -> bool {
    match case_of(alloc, task, output) {
        Ok(case) => is_output_permitted(alloc, &case, output),
        Err(_) => false,
    }
}

/// Whether the script is run whole, without a stop and with steps that are more than enough.
pub(crate) fn runs_whole<R: Threads + Wait + Sync>(rt: &R, alloc: Global, task: Task<'_>) -> bool {
    let freely = ran(rt, alloc, task, "");
    let stopped = ran_at(rt, alloc, task, ENOUGH, "newest");
    is_whole(alloc, task, &freely) && is_whole(alloc, task, &stopped)
}

/// How many lines of an output are those of calls.
pub(crate) fn calls_in(output: &Text) -> usize {
    let mut count: usize = 0;
    for line in output.as_str().lines() {
        if !line.starts_with('/') {
            count = count.saturating_add(1);
        }
    }
    count
}

/// So many stops from no step on, each so many steps behind the one before: the first after which what is left is forbidden, with one of the
/// choices in turn; or `ENOUGH` where the first stop leaves a call, or no stop leaves fewer than so many.
pub(crate) fn wrong_stop<R: Threads + Wait + Sync>(
    rt: &R,
    alloc: Global,
    task: Task<'_>,
    apart: u64,
    calls: usize,
) -> Option<u64> {
    let mut loses = false;
    for turn in 0..20_usize {
        let steps = apart.saturating_mul(turn as u64);
        let output = ran_at(rt, alloc, task, steps, CHOICES[turn % CHOICES.len()]);
        if !is_permitted(alloc, task, &output) {
            return Some(steps);
        }
        let left = calls_in(&output);
        loses = loses || left < calls;
        if turn == 0 && left > 0 {
            return Some(ENOUGH);
        }
    }
    (!loses).then_some(ENOUGH)
}
