//! Laws of the meaning of the file calls: rows, entries, puts, room, trees and orders.
//!
//! A state stays sound under every call; what a write puts, and what it looks at (`PutsWhole`,
//! `KeepsView`; specs/Puts and Views), is the same wherever that stayed; a content has one tree, and that of a state is
//! its own.
//!
//! - `facts`: Facts of the meaning of the file calls.
//! - `trees`: Trees of states: what a path leads to, and the tree that lists what stands at each
//!   path.
//! - `orders`: The order of a state's entries.
//! - `publishing`: Open files and published lengths, and the state that POSIX mode would commit.
//!
//! Stands on `posix_spec` and `list_laws`.
#![tactic(auto)]

mod facts;
mod orders;
mod publishing;
mod trees;

pub use facts::states_stay_sound;
pub use orders::{entries_stay_in_order, names_are_told_sorted};
pub use posix_spec::{Put, State};
pub use publishing::{names_commute_with_the_cut, states_publish};
pub use trees::{a_content_has_one_tree, a_tree_begins_as_itself, a_tree_lists_what_stands};
