//! The tree of what a device holds.
//!
//! `content_tree` lists every path of a volume with what stands there, a directory or the bytes of
//! a file, in the byte order of the printed paths: the tables give the names, the inodes and the
//! maps, and the device the words. It is the tree of the volume's content with these words where no
//! entry of the log is live (`tree_content`), and a content has one tree.
//!
//! The layer above may rely on this: the bytes of a file are read line by line by its map, and no
//! other word of the device is looked at, so the work goes by the names and the bytes of the files;
//! out of memory is the only error. `trees_can_be_read` says that a device whose words read as a
//! volume that keeps the rules has such tables.

mod files;
mod laws;
mod trees;

pub use crate::tables::{NameTable, child, is_directory, parent_of};
pub use laws::{trees_can_be_read, trees_tell_contents};
pub use posix_types::{
    Call, Flags, Handle, Mode, Outcome, Path, Reply, Shape, Tree, TreeEntry, TreeNode, Who,
};
pub use trees::content_tree;
