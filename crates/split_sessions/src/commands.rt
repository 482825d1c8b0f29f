//! The top call over files and a sink in memory.
ghost use Rattle.std.specs.Prelude.{◌≡◌, None, Some, IfSome, map};
ghost use Rattle.std.specs.String.{string_bytes};
ghost use Rattle.outside.specs.Outside.{Rose};
ghost use Rattle.split_top.specs.Top.{IsByThreads, IsTold, Says};

use command_line::{Status, status_text};
use outside::{MemFiles, MemSink};
use split_top::top_alone;
use std::alloc::{AllocError, Global};
use test_kit::Text;

/// Does the job that the words of a command line say, over these files, and puts what is to be told into the sink. None for the words
/// of `run`, which no test here gives: then nothing is done.
pub fn command(
    alloc: Global,
    words: &[String],
    files: &mut MemFiles,
    out: &mut MemSink,
) -> Option<Status>
    ensures threads { result ≡ None → Says (map string_bytes words.now) IsByThreads
        × (Some files.new.files ≡ Some files.old.files) × (Some out.new.taken ≡ Some out.old.taken) }
    ensures told { IfSome result (IsTold (map string_bytes words.now) (Some files.old.files) (Some files.new.files) (Some out.old.taken) (Some out.new.taken) (Rose files.old.misses files.new.misses) (Rose files.old.faults files.new.faults) (Rose out.old.faults out.new.faults)) }
{
    top_alone(alloc, words, files, out)
}

// Adds the words of a command line.
fn add_words(list: &mut Vec<String>, alloc: Global, line: &str) -> Result<(), AllocError> {
    for word in line.split(' ') {
        list.push(word.to_string(alloc)?)?;
    }
    Ok(())
}

/// The words of a command line, which are parted by blanks; none where memory is wanting.
pub fn words_of(alloc: Global, line: &str) -> Vec<String> {
    let mut words = Vec::new(alloc);
    if add_words(&mut words, alloc, line).is_err() {
        words.clear();
    }
    words
}

// Adds these bytes, and then the text of a status.
fn put_status(text: &mut Text, alloc: Global, put: &[u8], status: &Status) {
    text.put_bytes(put);
    match status_text(alloc, status) {
        Ok(bytes) => text.put_bytes(&bytes),
        Err(_) => text.fall_short(),
    }
}

/// Adds what the command of a line puts over these files and this sink, and then the text of its status.
pub fn put_answer_over(
    text: &mut Text,
    alloc: Global,
    files: &mut MemFiles,
    out: &mut MemSink,
    line: &str,
) {
    let words = words_of(alloc, line);
    match command(alloc, &words, files, out) {
        Some(status) => put_status(text, alloc, out.bytes(), &status),
        None => text.misspell(),
    }
}

/// What the command of a line puts over these files, and then the text of its status.
pub fn answer(alloc: Global, files: &mut MemFiles, line: &str) -> Text {
    let mut out = MemSink::new(alloc, Vec::new(alloc));
    let mut text = Text::new(alloc);
    put_answer_over(&mut text, alloc, files, &mut out, line);
    text
}

// Adds what the command of a line puts over these files and this sink. Where it is not done the text is not whole.
fn put_done(text: &mut Text, alloc: Global, files: &mut MemFiles, out: &mut MemSink, line: &str) {
    let words = words_of(alloc, line);
    match command(alloc, &words, files, out) {
        Some(Status::Done) => text.put_bytes(out.bytes()),
        _ => text.misspell(),
    }
}

/// What the command of a line puts over these files. Where it is not done the text is not whole.
pub fn done(alloc: Global, files: &mut MemFiles, line: &str) -> Text {
    let mut out = MemSink::new(alloc, Vec::new(alloc));
    let mut text = Text::new(alloc);
    put_done(&mut text, alloc, files, &mut out, line);
    text
}
