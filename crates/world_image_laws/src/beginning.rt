//! The beginning of a World: a mounted image stands for the state that begins with the tree of its content.
//!
//! Lemmas, and the small definitions that they speak of. A mounted volume (`IsMounted`) keeps the rules, and
//! each of its files has a name; nothing in its log is live. The layer above may rely on this: the list of
//! its content is a tree; the volume stands for the state that begins with that tree, each inode by the
//! place of its path (`numbers_of`), with nothing claimed and no write in flight; that state has the tree;
//! what the files hold leaves the reserve; and as many nodes and name lines are left on both sides
//! (`Begins`). `Mounted` has paths and content, `Trees` the tree, `Begun` the numbers and what stands,
//! `Rooms` the room, `Laws` the laws, each as one statement.

ghost use Rattle.world_image_laws.specs.BeginningLaws.{BeginsMounted, HasFirstPath, HasOwnFirstPath, HasTreeMounted, MountsReads};

/// A mounted volume begins as the tree of its content.
pub fn a_mounted_volume_begins()
    ensures { BeginsMounted }
{}

/// The list of the content is a tree.
pub fn a_content_is_a_tree()
    ensures { HasTreeMounted }
{}

/// Words that read as a volume that keeps the rules are mounted, once each file has a name.
pub fn words_are_mounted()
    ensures { MountsReads }
{}

/// Each inode in use but the root has a first path, in the order in which paths are printed.
pub fn an_inode_has_a_first_path()
    ensures first { HasFirstPath }
    ensures own { HasOwnFirstPath }
{}
