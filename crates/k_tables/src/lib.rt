//! Look-ups in the tables of a volume: what a call finds or why it is refused; and the tree of a device.
//!
//! Each look-up is exact over the space of the tables; a refusal is the first row of the call that
//! fits; the tree is that of the volume's content with the device's words.
//!
//! - `tables`: Look-ups in the tables of a volume, and what a call on names finds there, or why it
//!   is refused.
//! - `contents`: The tree of what a device holds.
//!
//! Stands on `layout_model`, `posix_types`, `posix_tables`, `k_names`, `name_laws`, `pm_lines`,
//! `extent_map` and `posix_laws`.
#![tactic(auto)]

mod contents;
mod tables;

pub use contents::{
    Call, Flags, Handle, Mode, Outcome, Path, Reply, Shape, Tree, TreeEntry, TreeNode, Who,
    content_tree, trees_can_be_read, trees_tell_contents,
};
pub use tables::{
    Decoded, Entry, LONGEST_NAME, Moving, NameLine, NameTable, Place, Refusal, TreePlace, child,
    decode_name, directory_to_remove, encode_name, entries_to_rename, entry_to_unlink, free_inode,
    has_entries, is_directory, node_at, parent_of, place_to_make, tree_places, walk_down,
};
