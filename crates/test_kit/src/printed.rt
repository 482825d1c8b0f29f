//! Lines of rows as histories and trees are printed.
use crate::texts::Text;
use posix_spec::{Item, Tree};
use report_text::{history_text, tree_text};
use std::alloc::Global;

/// Adds a line `CALL = REPLY` of a row, with its caller in front or not, as a history prints it: the call has this number.
pub fn put_call(text: &mut Text, number: u32, line: &str) {
    let (caller, line) = line.split_once(": ").unwrap_or(("0", line));
    let Some((call, reply)) = line.split_once(" = ") else {
        text.misspell();
        return;
    };
    text.put(caller);
    text.put(".");
    text.put_number(u64::from(number));
    text.put(" ");
    text.put_words(call);
    text.put(" = ");
    text.put_words(reply);
    text.put("\n");
}

/// Adds lines as they are printed, as the entries of a tree: they stand in the row with `; ` between two.
pub fn put_lines(text: &mut Text, lines: &str) {
    for line in lines.split("; ") {
        text.put_words(line);
        text.put("\n");
    }
}

/// Adds what a history prints of these items.
pub fn put_items(text: &mut Text, alloc: Global, items: &[Item]) {
    match history_text(alloc, items) {
        Ok(bytes) => text.put_bytes(&bytes),
        Err(_) => text.fall_short(),
    }
}

/// Adds what is printed of a tree.
pub fn put_tree(text: &mut Text, alloc: Global, tree: &Tree) {
    match tree_text(alloc, tree) {
        Ok(bytes) => text.put_bytes(&bytes),
        Err(_) => text.fall_short(),
    }
}
