//! Names of directories: name lines as bytes, and the table of an image's names.
//!
//! A name line has 64 bytes: the parent's inode in bytes 0 to 3, the child's in 4 to 7, the length
//! of the name in 8, and the name from 16 on; all other bytes are 0, and a line of zeros is free.
//! The code is exact: a line is read as a name exactly where it is the spelling of that name, and
//! each name has one spelling (`name_lines_are_exact`).
//!
//! `NameTable` keeps the lines of an image: a finite map from parent and name to line and child, in
//! which no two lines have the same parent and name. The layer above relies on its look-ups (the
//! lowest free line, the children of a directory in the order of their bytes), and, where no path
//! of names leads back, on the walks up and down.
//!
//! Beside the lines it keeps three sorted lists of words that are halved (`LineIndex`), which no
//! clause shows: `find`, `free_line`, a step of `below` and a name of `children` cost the logarithm
//! of the lines; a line that changes moves words, and takes no memory.
//!
//! `below` and `height` ask that no path leads back to its start (`IsAcyclic`).
//!
//! Stands on `posix_types`, `layout_model` and `image_layout`.
#![tactic(auto)]

mod children;
mod index;
mod line;
mod rows;
mod table;
mod walks;

pub use line::{Decoded, LONGEST_NAME, NameLine, decode_name, encode_name, name_lines_are_exact};
pub use table::NameTable;
