//! Lines of rows that stand for several: those of a name, and those of each of some words.
use crate::tables::{number, option};
use crate::texts::Text;
use std::alloc::Global;

// The lines of a table that have a name; none where no part has it.
fn named<'a>(table: &'a str, name: &str) -> &'a str {
    for part in table.split("\n\n") {
        match option(part, "lines") {
            Some(found) if found == name => return part,
            _ => {}
        }
    }
    ""
}

// Adds a line with a word in the place of each `#`.
fn put_line(text: &mut Text, line: &str, word: &str) {
    let mut is_first = true;
    for part in line.split('#') {
        if !is_first {
            text.put(word);
        }
        is_first = false;
        text.put(part);
    }
    text.put("\n");
}

// Adds the lines that have a name, with a word in the place of each `#`.
fn put_named(text: &mut Text, table: &str, name: &str, word: &str) {
    let lines = named(table, name);
    if lines.is_empty() {
        text.misspell();
    }
    for line in lines.lines() {
        if !line.starts_with('#') && !line.starts_with("lines ") {
            put_line(text, line, word);
        }
    }
}

// Adds what is done for a word: a line, or the lines of `do NAME`.
fn put_done(text: &mut Text, table: &str, what: &str, word: &str) {
    match what.split_once(' ') {
        Some(("do", name)) => put_named(text, table, name, word),
        _ => put_line(text, what, word),
    }
}

// Adds what is done for a number.
fn put_at(text: &mut Text, alloc: Global, table: &str, what: &str, number: u64) {
    let mut digits = Text::new(alloc);
    digits.put_number(number);
    put_done(text, table, what, digits.as_str());
}

// Adds what is done for each number of a range.
fn put_numbered(text: &mut Text, alloc: Global, table: &str, what: &str, first: &str, last: &str) {
    let (Ok(first), Ok(last)) = (number(first), number(last)) else {
        text.misspell();
        return;
    };
    for number in first..last.saturating_add(1) {
        put_at(text, alloc, table, what, number);
    }
}

// Adds what is done for each of some words, or for each number of `FIRST to LAST`.
fn put_each(text: &mut Text, alloc: Global, table: &str, words: &str, what: &str) {
    match words.split_once(" to ") {
        Some((first, last)) => put_numbered(text, alloc, table, what, first, last),
        None => {
            for word in words.split(' ') {
                put_done(text, table, what, word);
            }
        }
    }
}

// Adds what `WORDS: WHAT` stands for.
fn put_for(text: &mut Text, alloc: Global, table: &str, rest: &str) {
    match rest.split_once(": ") {
        Some((words, what)) => put_each(text, alloc, table, words, what),
        None => text.misspell(),
    }
}

// Adds a line, or those that it stands for.
fn put_one(text: &mut Text, alloc: Global, table: &str, line: &str) {
    match line.split_once(' ') {
        Some(("do", name)) => put_named(text, table, name, ""),
        Some(("for", rest)) => put_for(text, alloc, table, rest),
        _ => {
            text.put(line);
            text.put("\n");
        }
    }
}

// Adds the lines of a row of a table, with those that `do` and `for` stand for in their places.
pub(crate) fn put_unfolded(text: &mut Text, alloc: Global, table: &str, row: &str) {
    for line in row.lines() {
        put_one(text, alloc, table, line);
    }
}
