//! Walks of paths over the tables.
ghost use Rattle.std.specs.Prelude.{◌≡◌, false, Ok};
ghost use Rattle.layout_model.specs.Tables.{IsAcyclic};
ghost use Rattle.name_laws.specs.k_split_model.Spaces.{entries_of, is_directory_in, space_of};
ghost use Rattle.posix_tables.specs.Names.{child_of, downward, has_entries, is_root, last_name, node_at_path, walk, walk_from};

use crate::tables::lookups::is_directory;
use k_names::NameTable;
use layout_model::Inode;
use posix_tables::entries::{directory_names, is_root};
use posix_types::{Errno, Name, Path};

/// The inode that a name in a directory leads to.
pub fn child(names: &NameTable, parent: u32, name: &Name) -> Option<u32>
    ensures { result ≡ child_of (entries_of names.now) parent name.now }
{
    match names.find(parent, name) {
        Some((_line, child)) => Some(child),
        None => None,
    }
}

// One step down from a directory.
fn step_down(inodes: &[Inode], names: &NameTable, at: u32, name: &Name) -> Result<u32, Errno>
    ensures { result ≡ downward (is_directory_in inodes.now)
        (child_of (entries_of names.now) at name.now) (λ node. Ok node) }
{
    match child(names, at, name) {
        None => Err(Errno::ENOENT),
        Some(node) => {
            if is_directory(inodes, node) {
                Ok(node)
            } else {
                Err(Errno::ENOTDIR)
            }
        }
    }
}

/// The directory that names lead to from the root, or why they lead to none: ENOENT where a name is
/// not there, ENOTDIR where one is a file.
pub fn walk_down(inodes: &[Inode], names: &NameTable, path: &[Name]) -> Result<u32, Errno>
    ensures { result
        ≡ walk_from (is_directory_in inodes.now) (entries_of names.now) 0 path.now }
{
    let mut at = 0;
    for name in path {
        match step_down(inodes, names, at, name) {
            Ok(node) => at = node,
            Err(errno) => return Err(errno),
        }
    }
    Ok(at)
}

/// The directory of a path: the walk of every name but the last.
#[tactic(auto, unfolding(posix_tables::specs::Names::walk))]
pub fn parent_of(inodes: &[Inode], names: &NameTable, path: &Path) -> Result<u32, Errno>
    ensures { result ≡ walk (space_of inodes.now names.now) path.now }
{
    walk_down(inodes, names, directory_names(path))
}

/// The last name of a path that is not the root's.
pub(crate) fn last(path: &Path) -> &Name
    requires { is_root path.now ≡ false }
    ensures { result.now ≡ last_name path.now }
{
    &path.names[path.names.len() - 1]
}

/// The inode at a path, if its walk leads to a directory that has the last name.
#[tactic(auto, unfolding(posix_tables::specs::Names::node_at_path))]
pub fn node_at(inodes: &[Inode], names: &NameTable, path: &Path) -> Option<u32>
    ensures { result ≡ node_at_path (space_of inodes.now names.now) path.now }
{
    if is_root(path) {
        return Some(0);
    }
    match parent_of(inodes, names, path) {
        Ok(parent) => child(names, parent, last(path)),
        Err(_) => None,
    }
}

/// Whether a directory has entries. No path of names may lead back to where it began.
pub fn has_entries(names: &NameTable, parent: u32) -> bool
    requires { IsAcyclic names.now }
    ensures { result ≡ has_entries (entries_of names.now) parent }
{
    names.height(parent) > 0
}
