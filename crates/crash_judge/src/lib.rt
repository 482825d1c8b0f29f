//! A judge for tests: whether a mode permits what a power loss left.
//!
//! `judge` is proved to answer true exactly where the relation of the mode holds. It never tries
//! states byte by byte: it makes the one state that is nearest to the tree. Nothing but tests
//! stands on it.
//!
//! - `judge_bytes`: What may be found in the bytes of files after a power loss, and what of it a
//!   tree wants.
//! - `judging`: A judge: whether a mode permits what a power loss left.
//!
//! Stands on `posix_tables`, `crash_spec`, `posix_laws`, `posix_spec` and `posix_types`.
#![tactic(auto)]

mod judge_bytes;
mod judging;

pub use judge_bytes::{
    Cut, Effect, after, after_all, byte_at, calls_of, effects_of, has_tree, is_left, numbers_of,
    run, wanted, with_call,
};
pub use judging::{
    Call, Data, Flags, Handle, Item, Mode, Name, Path, Put, Reply, Shape, State, Tree, TreeEntry,
    TreeNode, Whence, Who, default_shape, judge, root_alone,
};
