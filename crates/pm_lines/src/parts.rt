// How parts of a device go out and come back.
ghost use Rattle.std.specs.Prelude.{◌≡◌, ◌≢◌, ◌+◌, ◌*◌, ◌<◌, ◌≤◌, ℕ, true, false, length, slice_index, replicate, IfOk};
ghost use Rattle.pm_model.specs.Cells.{cell, is_single, is_lent};
ghost use Rattle.pm_model.specs.Cells.{newest as newest_cell};
ghost use Rattle.pm_lines.specs.LentLines.{NotesLines, PutsPart};
ghost use Rattle.pm_lines.specs.Wholes.{IsWhole};

use crate::cells::newest;
use crate::words::Words;
use pm_model::Cell;
use std::alloc::{AllocError, Global};

// So many lines, none of them lent.
pub(crate) fn no_lines_out(alloc: Global, count: usize) -> Result<Vec<bool>, AllocError>
    ensures { IfOk result (λ lent. lent.items ≡ replicate count false) }
{
    vec![in alloc; false; count]
}

// Notes of lines whether they are lent.
pub(crate) fn note_lines(lent: &mut Vec<bool>, first: usize, count: usize, out: bool)
    requires { first + count ≤ length lent.old.items }
    ensures { NotesLines first count out lent.old.items lent.new.items }
{
    for line in first..first + count {
        lent[line] = out;
    }
}

// The cells of a line's words.
pub(crate) fn cells_of_line(words: &Words, line: usize) -> [Cell; 8]
    requires { 8 * line + 8 ≤ length words.now }
    ensures whole { IsWhole 8 result }
    ensures cells { (k : ℕ) → k < 8 → cell result k ≡ cell words.now (8 * line + k) }
{
    // It bounds the words' numbers.
    let _ = words.len();
    let mut cells = [Cell::Single(0); 8];
    for k in 0..8 {
        cells[k] = words.cell_of(8 * line + k);
    }
    cells
}

// What a read gives of a line's words.
pub(crate) fn newest_of_line(words: &Words, line: usize) -> [u64; 8]
    requires { 8 * line + 8 ≤ length words.now }
    ensures { (k : ℕ) → k < 8 → slice_index result k ≡ newest_cell (cell words.now (8 * line + k)) }
{
    // It bounds the words' numbers.
    let _ = words.len();
    let mut values = [0; 8];
    for k in 0..8 {
        values[k] = newest(words.cell_of(8 * line + k));
    }
    values
}

// Puts the words of a block back, without their marks.
pub(crate) fn put_words(words: &mut Words, first: usize, part: &Words)
    requires in_range { first + length part.now ≤ length words.old }
    requires single { (i : ℕ) → first ≤ i → i < first + length part.now
        → is_single (cell words.old i) ≡ true }
    ensures { PutsPart first part.now words.old words.new }
{
    // It bounds the words' numbers.
    let _ = words.len();
    words.replace_from(first, part.numbers());
    for pair in part.pairs() {
        words.put(first + pair.word, Cell::Two(pair.old, pair.new));
    }
}

// Puts the words of a line back, without their marks.
pub(crate) fn put_cells(words: &mut Words, first: usize, part: &[Cell])
    requires in_range { first + length part.now ≤ length words.old }
    requires single { (i : ℕ) → first ≤ i → i < first + length part.now
        → is_single (cell words.old i) ≡ true }
    requires home { (k : ℕ) → k < length part.now → is_lent (cell part.now k) ≡ false }
    ensures { PutsPart first part.now words.old words.new }
{
    // It bounds the words' numbers.
    let _ = words.len();
    for (k, cell) in part.iter().enumerate() {
        words.put(first + k, *cell);
    }
}
