//! Sessions: commands over the same files, one after another, and edits of these files between them.
use crate::commands::{answer, put_answer_over};
use crate::edits::{change, copy, was_edit};
use crate::forging::put_forged;
use outside::{MemFiles, MemSink};
use std::alloc::Global;
use test_kit::{RowError, Text, asked, number, put_lines, word};

// Adds numbers parted by commas; none where the word is `-`.
fn add_numbers(list: &mut Vec<u64>, word: &str) -> Result<(), RowError> {
    if word != "-" {
        for text in word.split(',') {
            list.push(number(text)?)?;
        }
    }
    Ok(())
}

// Numbers parted by commas. Where they are misspelled the text is not whole.
fn numbers(text: &mut Text, alloc: Global, word: &str) -> Vec<u64> {
    let mut list = Vec::new(alloc);
    if add_numbers(&mut list, word).is_err() {
        text.misspell();
    }
    list
}

// Adds a file `S` with these bytes.
fn add_script(
    list: &mut Vec<(String, Vec<u8>)>,
    alloc: Global,
    bytes: &[u8],
) -> Result<(), RowError> {
    let name = "S".to_string(alloc)?;
    Ok(list.push((name, Vec::from_slice(alloc, bytes)?))?)
}

// A file `S` with these bytes, alone, where these calls fail.
fn alone(text: &mut Text, alloc: Global, bytes: &[u8], failing: &str) -> MemFiles {
    let failing = numbers(text, alloc, failing);
    let mut list = Vec::new(alloc);
    if add_script(&mut list, alloc, bytes).is_err() {
        text.fall_short();
    }
    MemFiles::new(alloc, list, failing)
}

// Adds what a command puts over these files and a sink of which these calls fail.
fn put_over(text: &mut Text, alloc: Global, files: &mut MemFiles, puts: &str, command: &str) {
    let failing = numbers(text, alloc, puts);
    let mut out = MemSink::new(alloc, failing);
    put_answer_over(text, alloc, files, &mut out, command);
}

// Adds what became of the file `S`, which had these bytes.
fn put_end(text: &mut Text, files: &MemFiles, before: &[u8]) {
    let after = files.bytes("S").unwrap_or(b"");
    let kept = if after == before { "kept" } else { "replaced" };
    text.put("S is ");
    text.put(kept);
    text.put(", ");
    text.put_number(after.len() as u64);
    text.put(" bytes\n");
}

// Adds what a command puts over a file `S` with these bytes, alone, and what became of it. These calls of the files and of the sink fail.
fn put_alone(text: &mut Text, alloc: Global, before: &[u8], file_calls: &str, words: &str) {
    let (puts, command) = words.split_once(' ').unwrap_or((words, ""));
    let mut files = alone(text, alloc, before, file_calls);
    put_over(text, alloc, &mut files, puts, command);
    put_end(text, &files, before);
}

// `FILES PUTS WORDS`: the command with these words over the file `S` alone, where these calls of the files and of the sink
// fail, counted from 0. What is told ends with what became of `S`.
fn put_failing(text: &mut Text, alloc: Global, files: &MemFiles, line: &str) {
    let (file_calls, rest) = line.split_once(' ').unwrap_or((line, ""));
    match files.bytes("S") {
        Some(before) => put_alone(text, alloc, before, file_calls, rest),
        None => text.misspell(),
    }
}

// Adds a line with bytes as numbers.
fn put_numbers(text: &mut Text, bytes: &[u8]) {
    let mut between = "";
    for byte in bytes {
        text.put(between);
        text.put_number(u64::from(*byte));
        between = " ";
    }
    text.put("\n");
}

// `NAME PLACE COUNT`: so many bytes of a file from that place on, as far as it has them.
fn put_bytes(text: &mut Text, files: &MemFiles, line: &str) {
    let (Ok(place), Ok(count)) = (number(word(line, 1)), number(word(line, 2))) else {
        text.misspell();
        return;
    };
    let bytes = files.bytes(word(line, 0)).unwrap_or(b"");
    let end = bytes.len().min(place.saturating_add(count) as usize);
    put_numbers(text, bytes.get(place as usize..end).unwrap_or(&[]));
}

// The name of the image that is damaged.
const DAMAGED: &str = "damaged";

// Damages a copy of an image: these bytes stand from these places on.
fn damage(alloc: Global, files: &mut MemFiles, line: &str) -> Result<(), RowError> {
    let (name, edits) = line.split_once(" ").ok_or(RowError::Misspelled)?;
    copy(alloc, files, name, DAMAGED)?;
    for edit in edits.split(" ; ") {
        change(alloc, files, "set", DAMAGED, edit)?;
    }
    Ok(())
}

// `NAME PLACE BYTE .. ; PLACE BYTE ..`: the tree of an image with these bytes from these places on.
fn put_damaged(text: &mut Text, alloc: Global, files: &mut MemFiles, line: &str) {
    match damage(alloc, files, line) {
        Ok(()) => text.put_text(&answer(alloc, files, "tree damaged")),
        Err(_) => text.misspell(),
    }
}

// Adds what a line puts, and then the text of its status.
fn put_came(text: &mut Text, alloc: Global, files: &mut MemFiles, line: &str) {
    match line.split_once(' ') {
        Some(("forged", words)) => put_forged(text, alloc, files, words),
        Some(("bytes", words)) => put_bytes(text, files, words),
        Some(("failing", words)) => put_failing(text, alloc, files, words),
        Some(("damage", words)) => put_damaged(text, alloc, files, words),
        _ => text.put_text(&answer(alloc, files, line)),
    }
}

// Adds the tree of an image.
fn put_tree(text: &mut Text, alloc: Global, files: &mut MemFiles, name: &str) {
    let mut line = Text::new(alloc);
    line.put("tree ");
    line.put(name);
    text.put_text(&answer(alloc, files, line.as_str()));
}

// Adds what is wanted: `same`, the tree of the image that is damaged as it was before; `rule R at P`, that refusal; or lines.
fn put_wanted(text: &mut Text, alloc: Global, files: &mut MemFiles, line: &str, want: &str) {
    if want == "same" {
        put_tree(text, alloc, files, word(line, 1));
    } else if word(want, 0) == "rule" {
        text.put("splitfs: bad image: ");
        text.put(want);
        text.put("\n");
    } else {
        put_lines(text, want);
    }
}

// Whether a command has this answer.
fn is_answer(alloc: Global, files: &mut MemFiles, command: &str, want: &str) -> bool {
    let mut came = Text::new(alloc);
    put_came(&mut came, alloc, files, command);
    let mut wanted = Text::new(alloc);
    put_wanted(&mut wanted, alloc, files, command, want);
    came.is_same(&wanted)
}

// Whether a line without an answer is a remark, the name of the row, or an edit, which is carried out.
fn is_done(alloc: Global, files: &mut MemFiles, line: &str) -> bool {
    match word(line, 0) {
        "#" | "row" => true,
        _ => was_edit(alloc, files, line),
    }
}

// Whether a line with an answer has that answer, and one without is done.
fn is_as_wanted(alloc: Global, files: &mut MemFiles, line: &str) -> bool {
    match asked(line) {
        Some((command, want)) => is_answer(alloc, files, command, want),
        None => is_done(alloc, files, line),
    }
}

// The first line of a session that is answered otherwise.
fn first_other<'a>(alloc: Global, files: &mut MemFiles, row: &'a str) -> Option<&'a str> {
    for line in row.lines() {
        if !is_as_wanted(alloc, files, line) {
            return Some(line);
        }
    }
    None
}

// Adds how a session over files of its own goes.
fn put_told(text: &mut Text, alloc: Global, row: &str) {
    let mut files = MemFiles::new(alloc, Vec::new(alloc), Vec::new(alloc));
    match first_other(alloc, &mut files, row) {
        Some(line) => {
            text.put("answered otherwise: ");
            text.put(line);
        }
        None => text.put("ok"),
    }
}

/// How a session over files of its own goes: `ok`, or the first line that is answered otherwise. A line `COMMAND = ANSWER` has
/// the words of a command line and what is put, with the text of the status, its lines parted by `; `. So have `bytes NAME PLACE
/// COUNT`; `failing FILES PUTS COMMAND`, a command over the file `S` alone, where these calls of the files and of the sink fail;
/// `damage NAME PLACE BYTE .. ; PLACE BYTE ..`, the tree of an image with these bytes, or `same`; and `forged SEED COUNT`, images
/// that are drawn. A refused image is told as `rule R at P`. The other lines are edits: `copy FROM TO`, `cut NAME LENGTH`,
/// `set NAME PLACE BYTE ..`, `fill NAME PLACE COUNT BYTE`, `entry NAME PLACE NUMBER ..` (a log entry by its ten numbers),
/// `file NAME LINES` and `script NAME K` (the script of the worked run K of `split_cases`).
pub fn session_told(alloc: Global, row: &str) -> Result<String, RowError> {
    let mut text = Text::new(alloc);
    put_told(&mut text, alloc, row);
    text.end()
}
