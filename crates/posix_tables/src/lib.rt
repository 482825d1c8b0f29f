//! The tables in which the meaning of the file calls is said.
//!
//! Nodes by their numbers, directory entries and walks of paths, what is open, room in blocks, bytes of
//! files, and the places of a tree: each as a definition in `specs/`, and as a function over plain lists
//! that is proved to be equal to it.
//!
//! The layer above may rely on this: each function answers its word exactly, and those that change a
//! list leave what the word says. Once memory ran out the tables, and the entries of
//! `insert_entry`, are as before.
//!
//! `specs/Names.antt` and `specs/NameRows.antt`, the rows of the calls that take a path, look at a
//! `Space` and at no state: every file system refuses by these rows. `specs/Outcomes.antt` has what
//! rows answer, and `specs/Lookups.antt` the laws of look-ups. How many blocks things take stands in
//! `block_counts`. Stands on it and on `posix_types`.
//!
//! A handle whose binding leads nowhere is unknown (EBADF). `give_descriptor` and `open` ask for a free
//! descriptor.
#![tactic(auto)]

pub mod bytes;
pub mod entries;
pub mod nodes;
pub mod open;
pub mod outcomes;
pub mod places;
pub mod room;
pub mod walk;
