//! Look-ups in the lines of a table by its indexes, the lowest line first.

ghost use Rattle.std.specs.Prelude.{◌≡◌, ◌<◌, ◌^◌, ℕ, length, replicate, count_by, false, None, IfSome, IfNone, IfOk};
ghost use Rattle.layout_model.specs.Names.{row, is_entry, is_child, is_free_row, child_of_row, parent_of_row, find_name, free_line, parent_of};
ghost use Rattle.k_names.specs.Finding.{IsRow};
ghost use Rattle.k_names.specs.Indexes.{child_word_of, name_word, name_word_of, parent_word_of, IsIndex};

use crate::index::{LineIndex, NO_WORD};
use crate::line::NameLine;
use std::alloc::{AllocError, Global};

/// The words of a row in the indexes.
#[derive(Clone, Copy)]
pub(crate) struct Words {
    pub name: u32,
    pub parent: u32,
    pub child: u32,
}

// The word of a parent and a name.
fn name_word(parent: u32, name: &[u8]) -> u32
    ensures { result ≡ name_word parent name.now }
{
    let mut word = parent;
    for byte in name {
        word = ((u64::from(word) * 16_777_619 + u64::from(*byte)) % 0x1_0000_0000) as u32;
    }
    word
}

// The words of a row.
pub(crate) fn words_of(row: &Option<NameLine>) -> Words
    ensures name { result.name ≡ name_word_of row.now }
    ensures parent { result.parent ≡ parent_word_of row.now }
    ensures child { result.child ≡ child_word_of row.now }
{
    match row {
        Some(line) => Words {
            name: name_word(line.parent, &line.name.bytes),
            parent: line.parent,
            child: line.child,
        },
        None => Words {
            name: NO_WORD,
            parent: NO_WORD,
            child: NO_WORD,
        },
    }
}

// Whether the line has this parent and name.
fn is_entry(row: &Option<NameLine>, parent: u32, name: &[u8]) -> bool
    ensures { result ≡ is_entry parent name.now row.now }
{
    match row {
        Some(line) => line.parent == parent && line.name.bytes.as_slice() == name,
        None => false,
    }
}

// Whether the line has no name.
fn is_free(row: &Option<NameLine>) -> bool
    ensures { result ≡ is_free_row row.now }
{
    row.is_none()
}

// Whether the line has this child.
fn is_child(row: &Option<NameLine>, child: u32) -> bool
    ensures { result ≡ is_child child row.now }
{
    match row {
        Some(line) => line.child == child,
        None => false,
    }
}

// The child of a line, 0 where it is free.
fn child_of(row: &Option<NameLine>) -> u32
    ensures { result ≡ child_of_row row.now }
{
    match row {
        Some(line) => line.child,
        None => 0,
    }
}

// The parent of a line, 0 where it is free.
fn parent_in(row: &Option<NameLine>) -> u32
    ensures { result ≡ parent_of_row row.now }
{
    match row {
        Some(line) => line.parent,
        None => 0,
    }
}

// The line of a parent's name, and its child.
pub(crate) fn find_name(
    rows: &[Option<NameLine>],
    by_name: &LineIndex,
    parent: u32,
    name: &[u8],
) -> Option<(u32, u32)>
    requires size { length rows.now < 2 ^ 32 }
    requires index { IsIndex name_word_of rows.now by_name.now }
    ensures found { result ≡ find_name rows.now parent name.now }
    ensures within { IfSome result (λ found. found.0 < length rows.now) }
    ensures row { IfSome result (λ found. IsRow rows.now parent name.now found.0 found.1) }
    ensures none { IfNone result ((k : ℕ) → is_entry parent name.now (row rows.now k) ≡ false) }
{
    let word = name_word(parent, name);
    let mut from = 0;
    while let Some(line) = by_name.next(word, from) {
        let row = &rows[line as usize];
        if is_entry(row, parent, name) {
            return Some((line, child_of(row)));
        }
        from = line + 1;
    }
    None
}

// The lowest line without a name.
pub(crate) fn free_line(rows: &[Option<NameLine>], by_child: &LineIndex) -> Option<u32>
    requires size { length rows.now < 2 ^ 32 }
    requires index { IsIndex child_word_of rows.now by_child.now }
    ensures lowest { result ≡ free_line rows.now }
    ensures within { IfSome result (λ line. line < length rows.now) }
{
    let mut from = 0;
    while let Some(line) = by_child.next(NO_WORD, from) {
        let row = &rows[line as usize];
        if is_free(row) {
            return Some(line);
        }
        from = line + 1;
    }
    None
}

// The directory of the lowest line whose child this is.
pub(crate) fn parent_of(rows: &[Option<NameLine>], by_child: &LineIndex, ino: u32) -> Option<u32>
    requires size { length rows.now < 2 ^ 32 }
    requires index { IsIndex child_word_of rows.now by_child.now }
    ensures { result ≡ parent_of rows.now ino }
{
    let mut from = 0;
    while let Some(line) = by_child.next(ino, from) {
        let row = &rows[line as usize];
        if is_child(row, ino) {
            return Some(parent_in(row));
        }
        from = line + 1;
    }
    None
}

// How many lines have no name.
pub(crate) fn free_count(rows: &[Option<NameLine>]) -> u32
    requires { length rows.now < 2 ^ 32 }
    ensures { result ≡ count_by is_free_row rows.now }
{
    rows.iter().filter(|row| row.is_none()).count() as u32
}

// So many lines without a name.
pub(crate) fn blank_lines(alloc: Global, count: u32) -> Result<Vec<Option<NameLine>>, AllocError>
    ensures { IfOk result (λ lines. lines.items ≡ replicate count None) }
{
    let mut lines = Vec::with_capacity(alloc, count as usize)?;
    for _line in 0..count {
        lines.push(None)?;
    }
    Ok(lines)
}
