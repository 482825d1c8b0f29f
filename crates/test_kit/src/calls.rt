//! Reads the calls of rows.
use crate::faults::RowError;
use crate::texts::Text;
use crate::threads::scripts_of;
use posix_spec::{Call, Scripts, Who};
use std::alloc::Global;

/// Who makes the call of a line, and the line without that.
pub fn caller(line: &str) -> Result<(Who, &str), RowError> {
    match line.split_once(": ") {
        None => Ok((Who::Thread(0), line)),
        Some(("s", call)) => Ok((Who::Setup, call)),
        Some((name, call)) => match name.parse::<u32>() {
            Ok(number) => Ok((Who::Thread(number), call)),
            Err(_) => Err(RowError::Misspelled),
        },
    }
}

// The last call of the last thread.
fn last_call(scripts: &mut Scripts) -> Option<Call> {
    let mut list = scripts.threads.pop()?;
    list.calls.pop()
}

// The last call of a script.
fn call_of(alloc: Global, script: &str) -> Result<Call, RowError> {
    let mut scripts = scripts_of(alloc, script)?;
    last_call(&mut scripts).ok_or(RowError::Misspelled)
}

/// The call that a line of a row spells, of which the last word may be data in parts.
pub fn read_call(alloc: Global, line: &str) -> Result<Call, RowError> {
    let mut text = Text::new(alloc);
    text.put_words(line);
    call_of(alloc, text.as_str())
}
