//! Tables, their rows and the lines of these.
use crate::faults::RowError;
use crate::texts::Text;
use crate::unfolding::put_unfolded;
use std::alloc::Global;

/// A word of a line by its place, and no text past the last one.
pub fn word(line: &str, place: usize) -> &str {
    line.split(' ').nth(place).unwrap_or("")
}

/// The number that a word spells.
pub fn number(word: &str) -> Result<u64, RowError> {
    word.parse::<u64>().ok().ok_or(RowError::Misspelled)
}

/// The number of 32 bits that a word spells.
pub fn small_number(word: &str) -> Result<u32, RowError> {
    u32::try_from(number(word)?)
        .ok()
        .ok_or(RowError::Misspelled)
}

/// The words of an option of a row, which stand behind its first word.
pub fn option<'a>(row: &'a str, first: &str) -> Option<&'a str> {
    for line in row.lines() {
        if let Some((word, words)) = line.split_once(' ') {
            if word == first {
                return Some(words);
            }
        }
    }
    None
}

/// What a line of a row does, and the reply that it wants. None where it is a remark, the name or an option.
pub fn asked(line: &str) -> Option<(&str, &str)> {
    if line.starts_with('#') {
        None
    } else {
        line.split_once(" = ")
    }
}

// Adds what is told of the lines of a row.
fn put_told<F: Fn(Global, &str) -> Result<String, RowError>>(
    text: &mut Text,
    alloc: Global,
    lines: &Text,
    tell: &F,
)
    requires { F.IsAlwaysCallable tell.now }
{
    if !lines.is_whole() {
        text.put_fault(&RowError::Misspelled);
        return;
    }
    match tell(alloc, lines.as_str()) {
        Ok(told) => text.put(&told),
        Err(fault) => text.put_fault(&fault),
    }
}

// Adds the name of a row, and what is told of it; nothing of a part that is no row.
fn put_row<F: Fn(Global, &str) -> Result<String, RowError>>(
    text: &mut Text,
    alloc: Global,
    table: &str,
    row: &str,
    tell: &F,
)
    requires { F.IsAlwaysCallable tell.now }
{
    if let Some(name) = option(row, "row") {
        let mut lines = Text::new(alloc);
        put_unfolded(&mut lines, alloc, table, row);
        text.put(name);
        text.put(": ");
        put_told(text, alloc, &lines, tell);
        text.put("\n");
    }
}

/// How the rows of a table went: for each its name and what is told of it, on a line.
pub fn table_told<F: Fn(Global, &str) -> Result<String, RowError>>(
    alloc: Global,
    table: &str,
    tell: &F,
) -> Result<String, RowError>
    requires { F.IsAlwaysCallable tell.now }
{
    let mut text = Text::new(alloc);
    for row in table.split("\n\n") {
        put_row(&mut text, alloc, table, row, tell);
    }
    text.end()
}

// How many rows a table has by what is told of it, and how many went `ok`.
fn row_counts(told: &str) -> (usize, usize) {
    let mut all: usize = 0;
    let mut right: usize = 0;
    for line in told.lines() {
        all = all.saturating_add(1);
        if line.ends_with(": ok") {
            right = right.saturating_add(1);
        }
    }
    (all, right)
}

/// Asserts that a table has so many rows, and that of each it is told that it went `ok`.
pub fn assert_rows<R: Eprint + AllocGlobal, F: Fn(Global, &str) -> Result<String, RowError>>(
    rt: &R,
    table: &str,
    count: usize,
    tell: &F,
) -> Result<(), RowError>
    requires { F.IsAlwaysCallable tell.now }
{
    let told = table_told(rt.alloc(), table, tell)?;
    let (all, right) = row_counts(&told);
    if all == count && right == count {
        return Ok(());
    }
    let _ = rt.eprintln(told.as_str());
    Err(RowError::Differ)
}
