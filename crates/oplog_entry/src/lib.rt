//! Entries of the operation log as bytes.
//!
//! An entry fills one line of 64 bytes: 0 the check; 4 the kind and 5 the version, both 1; 6 the
//! count of blocks; 8 the sequence number; 16 the order; 24 the inode and 28 its generation; 32 the
//! file block; 36 the staging inode, 40 the staging block and 44 the staging generation; 48 the
//! size afterwards; 56 eight bytes of 0. The check is FNV-1a over bytes 4 to 63, so that a line
//! that was written in part is told from a whole one.
//!
//! The code is exact: a line is read with a sequence number exactly where it is the spelling of a
//! draft with that number, so a line is an entry for one number alone (`entries_are_exact`). A slot
//! of the log has the number of the log's base plus the slot, so entries of an earlier lap are no
//! entries now. Neither `encode` nor `decode` takes memory.
//!
//! What an append leaves in its line at any moment is said here too (`Holds`), so that logs of one thread and of
//! many speak of one thing. Stands on `layout_model`, `image_model`, `image_layout` and, for the lines of a log, `pm_lines`.
#![tactic(auto)]

mod check;
mod claims;
mod entry;
mod scanning;

pub use claims::{Full, Mark};
pub use entry::{decode, encode, entries_are_exact};
pub use layout_model::Draft;
pub use scanning::scan;
