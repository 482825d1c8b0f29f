//! Scripts of several threads: which calls a printed history has, and which come next.
use crate::faults::RowError;
use crate::tables::{small_number, word};
use posix_spec::{Call, Item, Scripts, Who};
use script_text::{ScriptFault, read_script};
use std::alloc::{AllocError, Global};

/// The scripts of a text.
pub fn scripts_of(alloc: Global, text: &str) -> Result<Scripts, RowError> {
    match read_script(alloc, text.as_bytes()) {
        Ok(scripts) => Ok(scripts),
        Err(ScriptFault::NoMemory) => Err(RowError::NoMemory),
        Err(ScriptFault::Bad { .. }) => Err(RowError::Misspelled),
    }
}

// Who made the call of a printed line `CALLER.NUMBER CALL = REPLY`, and the number of that call among those of the caller.
fn place_of(line: &str) -> Result<(Who, u32), RowError> {
    let (name, rest) = line.split_once('.').ok_or(RowError::Misspelled)?;
    let number = small_number(word(rest, 0))?;
    if name == "s" {
        return Ok((Who::Setup, number));
    }
    Ok((Who::Thread(small_number(name)?), number))
}

// The call of a caller that has this number.
fn call_at(scripts: &Scripts, who: Who, number: u32) -> Option<&Call> {
    match who {
        Who::Setup => scripts.setup.calls.get(number as usize),
        Who::Thread(thread) => {
            let list = scripts.threads.get(thread as usize)?;
            list.calls.get(number as usize)
        }
    }
}

// Adds the call of a printed line, by its caller and number.
fn add_printed(
    calls: &mut Vec<(Who, Call)>,
    scripts: &Scripts,
    line: &str,
) -> Result<(), RowError> {
    let (who, number) = place_of(line)?;
    match call_at(scripts, who, number) {
        Some(call) => Ok(calls.push((who, call.clone()?))?),
        None => Err(RowError::Misspelled),
    }
}

/// The calls of a printed history, by the callers and the numbers in its lines, in their order. Lines of a tree are passed over.
pub fn read_history(
    alloc: Global,
    scripts: &Scripts,
    text: &str,
) -> Result<Vec<(Who, Call)>, RowError> {
    let mut calls = Vec::new(alloc);
    for line in text.lines() {
        if !line.starts_with('/') {
            add_printed(&mut calls, scripts, line)?;
        }
    }
    Ok(calls)
}

/// How many calls of a history are those of this caller.
pub fn count_of(history: &[Item], who: Who) -> u32 {
    let mut count: u32 = 0;
    for item in history {
        if item.who == who {
            count = count.saturating_add(1);
        }
    }
    count
}

// Adds the call of a caller that comes behind a history, if there is one.
fn add_next(
    next: &mut Vec<(Who, Call)>,
    scripts: &Scripts,
    history: &[Item],
    who: Who,
) -> Result<(), AllocError> {
    if let Some(call) = call_at(scripts, who, count_of(history, who)) {
        next.push((who, call.clone()?))?;
    }
    Ok(())
}

/// The next call of each caller behind a history: that of the set-up alone, until it is done.
pub fn next_calls(
    alloc: Global,
    scripts: &Scripts,
    history: &[Item],
) -> Result<Vec<(Who, Call)>, AllocError> {
    let mut next = Vec::new(alloc);
    add_next(&mut next, scripts, history, Who::Setup)?;
    if next.is_empty() {
        for thread in 0..8 {
            add_next(&mut next, scripts, history, Who::Thread(thread))?;
        }
    }
    Ok(next)
}
