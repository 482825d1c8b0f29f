//! What may be found in the bytes of files after a power loss, and what of it a tree wants.
//!
//! What calls do to bytes is kept as plain data (`effects`: what each puts, and how far each shortens
//! the files), so that nobody tries states byte by byte. `is_left` says whether a tree may be left of a
//! state: it makes the one state that is nearest to the tree, in which each byte is as the tree wants
//! it, if it may be (`nearest`; `wanting` finds the bytes that a tree wants of a node), and the tree may
//! be left exactly where it is that of this state.
//!
//! The judge of the modes, `judging`, stands on it.

mod effects;
mod nearest;
mod runs;
mod wanting;

pub use effects::{Cut, Effect, calls_of, effects_of, with_call};
pub use nearest::is_left;
pub use runs::{after, after_all, after_item, has_tree, run};
pub use wanting::{byte_at, numbers_of, wanted};
