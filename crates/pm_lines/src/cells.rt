// What a read gives of a cell, and what the steps of a memory do to the cells of a line that is
// out.
ghost use Rattle.std.specs.Prelude.{◌≡◌, ◌≢◌, ◌/◌, ◌<◌, ℕ, true, length, slice_index, slice_set, if◌then◌else◌};
ghost use Rattle.pm_model.specs.Cells.{cell, is_single, is_marked, newest, oldest, stored, flushed, fenced, unmarked};

use pm_model::Cell;

// What a read gives.
pub(crate) fn newest(cell: Cell) -> u64
    ensures { result ≡ newest cell }
{
    match cell {
        Cell::Single(value) | Cell::Two(_, value) | Cell::Marked(_, value) => value,
        Cell::Lent => 0,
    }
}

// What a power loss leaves, the newest candidate or the oldest.
pub(crate) fn candidate(cell: Cell, is_newest: bool) -> u64
    ensures { result ≡ (if is_newest then newest cell else oldest cell) }
{
    match cell {
        Cell::Single(value) => value,
        Cell::Two(old, new) | Cell::Marked(old, new) => if is_newest { new } else { old },
        Cell::Lent => 0,
    }
}

pub(crate) fn is_single(cell: Cell) -> bool
    ensures { result ≡ is_single cell }
{
    matches!(cell, Cell::Single(_))
}

fn flushed(cell: Cell) -> Cell
    ensures { result ≡ flushed cell }
{
    match cell {
        Cell::Two(old, new) => Cell::Marked(old, new),
        same => same,
    }
}

fn fenced(cell: Cell) -> Cell
    ensures { result ≡ fenced cell }
{
    match cell {
        Cell::Marked(_, new) => Cell::Single(new),
        same => same,
    }
}

pub(crate) fn unmarked(cell: Cell) -> Cell
    ensures { result ≡ unmarked cell }
{
    match cell {
        Cell::Marked(old, new) => Cell::Two(old, new),
        same => same,
    }
}

// The word gets a second candidate.
pub(crate) fn store(cells: &mut [Cell], word: usize, value: u64)
    requires in_range { word < length cells.old }
    requires single { is_single (cell cells.old word) ≡ true }
    ensures { cells.new ≡ slice_set cells.old word (stored value (cell cells.old word)) }
{
    if let Cell::Single(old) = cells[word] {
        cells[word] = Cell::Two(old, value);
    }
}

// Marks the candidates of the line's words.
pub(crate) fn flush(cells: &mut [Cell], line: usize)
    requires { line < length cells.old / 8 }
    ensures words { (i : ℕ) → i / 8 ≡ line → cell cells.new i ≡ flushed (cell cells.old i) }
    ensures others { (i : ℕ) → i / 8 ≢ line → cell cells.new i ≡ cell cells.old i }
{
    let first = 8 * line;
    for word in first..first + 8 {
        cells[word] = flushed(cells[word]);
    }
}

// Drops what is older than a marked candidate, in all words.
pub(crate) fn fence(cells: &mut [Cell])
    ensures { (i : ℕ) → cell cells.new i ≡ fenced (cell cells.old i) }
{
    for cell in cells.iter_mut() {
        *cell = fenced(*cell);
    }
}
