//! Relink: disk blocks move from one file's map to another's, and no block is copied.
//!
//! `relink` gives a range of the target the disk blocks that a range of the source has, in order. The
//! source loses them, what the target had there is answered as freed, and all else of both maps stays.
//!
//! The layer above may rely on this: the two maps and the freed pieces are exact, file block by file
//! block (`Moves`), and so are the numbers of their blocks. Where the source lacks a block of the
//! range, the answer is the first such block, and needs no memory. The maps that are handed in stay.
//!
//! It stands on `extent_map`.
#![tactic(auto)]

mod linking;

pub use linking::{RelinkFault, Relinked, relink};
