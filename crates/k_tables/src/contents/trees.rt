//! The tree of tables and a device.
ghost use Rattle.std.specs.Prelude.{◌≡◌, ◌≤◌, ◌<◌, [], length, IfOk};
ghost use Rattle.posix_tables.specs.block_counts.declared.TheConstants.{LONGEST_FILE};
ghost use Rattle.pm_lines.specs.pm_model.Cells.{AllHome};
ghost use Rattle.pm_lines.specs.pm_model.Images.{words_of};
ghost use Rattle.name_laws.specs.image_model.Content.{found};
ghost use Rattle.name_laws.specs.image_model.Volume.{Volume};
ghost use Rattle.posix_laws.specs.TreeOf.{IsTreeOf};
ghost use Rattle.k_tables.specs.Files.{IsInside};
ghost use Rattle.k_tables.specs.ContentsTrees.{tree_content, node_in, entry_in, HasTables, HasTree};

use crate::contents::files::read_file;
use crate::tables::{NameTable, TreePlace, tree_places};
use extent_map::ExtentMap;
use layout_model::{Inode, Kind};
use pm_lines::Pm;
use posix_types::{Tree, TreeEntry, TreeNode};
use std::alloc::{AllocError, Global};

// What an inode is in the tree.
fn node_in(alloc: Global, pm: &Pm, inode: &Inode, map: &ExtentMap) -> Result<TreeNode, AllocError>
    requires home { AllHome pm.now }
    requires inside { IsInside map.now pm.now }
    requires small { inode.now.size ≤ LONGEST_FILE }
    ensures { IfOk result (λ node. node ≡ node_in inode.now map.now (words_of pm.now)) }
{
    match inode.kind {
        Kind::File => Ok(TreeNode::File(read_file(alloc, pm, map, inode.size)?)),
        Kind::Free | Kind::Directory | Kind::Staging => Ok(TreeNode::Directory),
    }
}

// The entry of a place.
fn entry_in(
    alloc: Global,
    pm: &Pm,
    inodes: &[Inode],
    names: &NameTable,
    maps: &[ExtentMap],
    place: &TreePlace,
) -> Result<TreeEntry, AllocError>
    requires tree { HasTree inodes.now names.now maps.now pm.now }
    requires inode { place.now.ino < length inodes.now }
    ensures { IfOk result (λ entry.
        entry ≡ entry_in inodes.now maps.now (words_of pm.now) place.now) }
{
    let ino = place.ino as usize;
    let node = node_in(alloc, pm, &inodes[ino], &maps[ino])?;
    let path = place.path.clone()?;
    Ok(TreeEntry { path, node })
}

/// Every path of the volume with what stands there, in the byte order of the printed paths: the
/// tree of its content with the words of the device, where no entry of the log is live.
pub fn content_tree(
    alloc: Global,
    pm: &Pm,
    inodes: &[Inode],
    names: &NameTable,
    maps: &[ExtentMap],
) -> Result<Tree, AllocError>
    requires { HasTree inodes.now names.now maps.now pm.now }
    ensures { IfOk result (λ tree. (v : Volume) → HasTables inodes.now names.now maps.now v
        → IsTreeOf (tree_content (found v [] (words_of pm.now))) tree) }
{
    let places = tree_places(alloc, names)?;
    let mut entries = Vec::with_capacity(alloc, places.len())?;
    for place in &places {
        entries.push(entry_in(alloc, pm, inodes, names, maps, place)?)?;
    }
    Ok(Tree { entries })
}
