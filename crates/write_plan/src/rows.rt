//! The rows of `write`, `pwrite` and `truncate`, from numbers that are kept beside K-Split.
//!
//! The rows of the calls speak of a state. A call that finds its file open asks here by whether it may write,
//! where it begins, how long the file is, and how much room all files leave, which the layer above keeps as a
//! number (`room_by`). The layer above may rely on this: the answer is that of the first row that fits
//! (`write_row_by`, `truncate_row_by`); and where these numbers are those of a state, it is the row of the
//! call in it (`WritesByRow`, `TruncatesByRow`).

ghost use Rattle.write_plan.specs.Rows.{TruncatesByRow, WritesByRow};

mod rows;

pub use rows::{room_by, truncate_row, write_row};

/// Where the numbers are those of a state, the rows are those of its calls.
pub fn the_rows_are_those_of_the_calls()
    ensures writes { WritesByRow }
    ensures truncates { TruncatesByRow }
{}
