//! Open files: descriptions in a slab, descriptors and handles, as tables that the calls are stated by.
//!
//! `open`, `dup`, `set_offset` and `close` change the tables just as the calls say, with inodes in
//! the place of node numbers (`numbered_as`, whose laws are in `numbers`).
//!
//! - `files`: Open files: descriptions, descriptors and handles.
//! - `numbers`: Open files, once with inodes and once with node numbers.
//!
//! At most 64 files are open at once (`at_most_64_files_are_open`).
//!
//! `new` takes memory for 64 descriptors; once room was made, one `open` or `dup` runs out of none. A
//! description keeps its number beside its slab key; `find` answers the key for `set_offset`.
//!
//! Stands on `posix_types`, `posix_tables` and `commute_laws`.
#![tactic(auto)]

mod files;
mod numbers;

pub use files::{
    OpenFault, OpenFiles, Opened, at_most_64_files_are_open, bindings_are_apart,
    known_handles_are_open,
};
pub use numbers::{
    a_change_opens_its_own_node_alone, numbered_tables_change_alike, numbered_tables_say_the_same,
};
