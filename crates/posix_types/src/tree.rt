//! The tree of a file system.
ghost use Rattle.std.specs.Prelude.{◌≡◌, ◌↔◌, IsTrue};
ghost use Rattle.std.specs.Cmp.{partial_equiv_from_equiv};

use crate::data::Data;
use crate::name::Path;
use std::alloc::AllocError;
use std::marker::Model;

/// What stands at a path: a directory, or a file with its bytes.
#[derive(Drop)]
pub enum TreeNode {
    Directory,
    File(Data),
}

impl Clone for TreeNode {
    ghost is_clone = { λ a b. b ≡ a };

    fn clone(&self) -> Result<TreeNode, AllocError> {
        match self {
            TreeNode::Directory => Ok(TreeNode::Directory),
            TreeNode::File(bytes) => Ok(TreeNode::File(bytes.clone()?)),
        }
    }
}

impl PartialEq for TreeNode {
    ghost use Rattle.posix_types.specs.SameNames.{equivalence};
    ghost use Rattle.posix_types.specs.SameTrees.{node_decides, same_node};

    ghost eq = { same_node };

    ghost laws = { partial_equiv_from_equiv (equivalence node_decides) };

    fn eq(&self, other: &TreeNode) -> bool
        ensures value { result ≡ same_node self.now other.now }
        ensures exact { IsTrue result ↔ (self.now ≡ other.now) }
    {
        match (self, other) {
            (TreeNode::Directory, TreeNode::Directory) => true,
            (TreeNode::File(a), TreeNode::File(b)) => a == b,
            _ => false,
        }
    }
}

impl Eq for TreeNode {
    ghost use Rattle.posix_types.specs.SameNames.{equivalence};
    ghost use Rattle.posix_types.specs.SameTrees.{node_decides};

    ghost laws = { equivalence node_decides };
}

/// A path of a tree, and what stands there.
#[derive(Drop)]
pub struct TreeEntry {
    pub path: Path,
    pub node: TreeNode,
}

impl Clone for TreeEntry {
    ghost is_clone = { λ a b. b ≡ a };

    fn clone(&self) -> Result<TreeEntry, AllocError> {
        let path = self.path.clone()?;
        let node = self.node.clone()?;
        Ok(TreeEntry { path, node })
    }
}

impl PartialEq for TreeEntry {
    ghost use Rattle.posix_types.specs.SameNames.{equivalence};
    ghost use Rattle.posix_types.specs.SameTrees.{entry_decides, same_entry};

    ghost eq = { same_entry };

    ghost laws = { partial_equiv_from_equiv (equivalence entry_decides) };

    fn eq(&self, other: &TreeEntry) -> bool
        ensures value { result ≡ same_entry self.now other.now }
        ensures exact { IsTrue result ↔ (self.now ≡ other.now) }
    {
        self.path == other.path && self.node == other.node
    }
}

impl Eq for TreeEntry {
    ghost use Rattle.posix_types.specs.SameNames.{equivalence};
    ghost use Rattle.posix_types.specs.SameTrees.{entry_decides};

    ghost laws = { equivalence entry_decides };
}

/// All paths of a file system with what stands there, in the byte order of the printed paths, the
/// root first. Contracts see the list of entries.
#[derive(Drop)]
pub struct Tree {
    pub entries: Vec<TreeEntry>,
}

impl Model for Tree {
    ghost use Rattle.std.specs.Prelude.{List};
    ghost use Rattle.posix_types.specs.declared.tree.TreeEntry.{TreeEntry};

    ghost Value = { List TreeEntry };

    ghost view = { λ tree. tree.entries.items };
}

impl Clone for Tree {
    ghost is_clone = { λ a b. b ≡ a };

    fn clone(&self) -> Result<Tree, AllocError> {
        let entries = self.entries.clone()?;
        Ok(Tree { entries })
    }
}

impl PartialEq for Tree {
    ghost use Rattle.posix_types.specs.SameNames.{equivalence};
    ghost use Rattle.posix_types.specs.SameTrees.{tree_decides, same_tree};

    ghost eq = { same_tree };

    ghost laws = { partial_equiv_from_equiv (equivalence tree_decides) };

    fn eq(&self, other: &Tree) -> bool
        ensures value { result ≡ same_tree self.now other.now }
        ensures exact { IsTrue result ↔ (self.now ≡ other.now) }
    {
        self.entries == other.entries
    }
}

impl Eq for Tree {
    ghost use Rattle.posix_types.specs.SameNames.{equivalence};
    ghost use Rattle.posix_types.specs.SameTrees.{tree_decides};

    ghost laws = { equivalence tree_decides };
}
