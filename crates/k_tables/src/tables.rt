//! Look-ups in the tables of a volume, and what a call on names finds there, or why it is refused.
//!
//! The tables are the inodes, a plain slice, and the names, a `NameTable`. `walk_down`, `node_at`
//! and the other look-ups are exact over the space of the tables (`space_of`). `place_to_make`,
//! `entry_to_unlink`, `directory_to_remove` and `entries_to_rename` answer what a call needs to
//! make its change (`specs/Found.antt`), or the outcome of the first of the call's rows that fits
//! (`refusal_of`). `tree_places` lists every path of at most 16 names once, in the byte order of
//! the printed paths (`specs/Trees.antt`).
//!
//! The layer above may rely on this: a call on names is refused by its rows exactly, whatever
//! stands in the tables; no call here reads the device or changes a table, and only `tree_places`
//! takes memory.

mod lookups;
mod making;
mod refusals;
mod removing;
mod renaming;
mod trees;
mod walks;

pub use k_names::{Decoded, LONGEST_NAME, NameLine, NameTable, decode_name, encode_name};
pub use lookups::{free_inode, is_directory};
pub use making::{Place, place_to_make};
pub use refusals::Refusal;
pub use removing::{Entry, directory_to_remove, entry_to_unlink};
pub use renaming::{Moving, entries_to_rename};
pub use trees::{TreePlace, tree_places};
pub use walks::{child, has_entries, node_at, parent_of, walk_down};
