//! The texts of a run: its history, one line a call that returned, its tree, one line a path, and its scripts.
//!
//! The layer above may rely on this: the texts are the functions of `specs/Texts.antt` and `specs/Scripts.antt`, byte for
//! byte, for every history, every tree and all scripts. Names and handles are put as the bytes that they are, so
//! a text is a list of bytes and no name is refused. Lines can be told apart where no name has a
//! blank or a line end, as none of a script has. A tree is printed in its own order, and the need
//! and the room behind a reply wherever an item has them.
//!
//! Stands on `posix_types` (what is printed), `posix_tables` (how a path is spelled) and `itoa`
//! (numbers in decimal).
#![tactic(auto)]

mod bytes;
mod calls;
mod data;
mod lines;
mod replies;
mod scripts;

pub use lines::{history_text, tree_text};
pub use scripts::scripts_text;
