//! Trees of states: what a path leads to, and the tree that lists what stands at each path.
//!
//! Lemmas and the definitions that they speak of, over those of `posix_spec`. `Paths` says what stands at a
//! path, `Entries` which directory entries are those of a tree, so that each node has one path, and `TreeOf`
//! what the tree of a content is: a content has one at most, and that of a state is its tree. So an image
//! whose content is what stands in a state has just the tree of that state. `Begins` says which lists of
//! entries are trees, and that in the state of one the numbers of the nodes are the places of its entries;
//! `TreeLaws` concludes that the tree of that state is the one that it began with, and `Rows` has a worked
//! tree. `Order` has the laws of rising texts that they stand on.

ghost use Rattle.posix_laws.specs.TreesLaws.{BeginsAsItself, HasOneTree, ListsWhatStands};

/// A state that begins with a tree has that tree.
pub fn a_tree_begins_as_itself()
    ensures { BeginsAsItself }
{}

/// A content has at most one tree.
pub fn a_content_has_one_tree()
    ensures { HasOneTree }
{}

/// The tree of a state lists what stands at its paths.
pub fn a_tree_lists_what_stands()
    ensures { ListsWhatStands }
{}
