//! The default image: its shape, and the tree of a fresh file system.
ghost use Rattle.std.specs.Prelude.{◌≡◌, IfOk};
ghost use Rattle.posix_spec.specs.Tree.{default_shape, root_alone};

use posix_types::{Path, Shape, Tree, TreeEntry, TreeNode};
use std::alloc::{AllocError, Global};

/// The shape of the default image.
pub fn default_shape() -> Shape
    ensures { result ≡ default_shape }
{
    Shape {
        data_blocks: 247,
        nodes: 60,
        names: 128,
    }
}

/// The tree of a fresh file system: the root alone.
pub fn root_alone(alloc: Global) -> Result<Tree, AllocError>
    ensures { IfOk result (λ tree. tree ≡ root_alone) }
{
    let mut entries = Vec::new(alloc);
    entries.push(TreeEntry {
        path: Path {
            names: Vec::new(alloc),
        },
        node: TreeNode::Directory,
    })?;
    Ok(Tree { entries })
}
