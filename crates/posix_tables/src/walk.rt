//! Walks of paths, over nodes and entries.
ghost use Rattle.std.specs.Prelude.{◌≡◌, ◌-◌, Ok, sum_by};
ghost use Rattle.posix_tables.specs.Nodes.{is_directory};
ghost use Rattle.posix_tables.specs.Names.{child_of, downward, lines_taken, walk_from};

use crate::entries::child_of;
use crate::nodes::{DirEntry, Node, is_directory};
use posix_types::{Errno, Name};

/// One step down from a directory.
fn step_down(nodes: &[Node], entries: &[DirEntry], at: usize, name: &Name) -> Result<usize, Errno>
    ensures { result ≡ downward (is_directory nodes.now) (child_of entries.now at name.now) (λ node. Ok node) }
{
    match child_of(entries, at, name.bytes.as_slice()) {
        None => Err(Errno::ENOENT),
        Some(node) => {
            if is_directory(nodes, node) {
                Ok(node)
            } else {
                Err(Errno::ENOTDIR)
            }
        }
    }
}

/// The directory that names lead to from the root.
pub fn walk_down(nodes: &[Node], entries: &[DirEntry], names: &[Name]) -> Result<usize, Errno>
    ensures { result ≡ walk_from (is_directory nodes.now) entries.now 0 names.now }
{
    let mut at = 0;
    for name in names {
        match step_down(nodes, entries, at, name) {
            Ok(node) => at = node,
            Err(errno) => return Err(errno),
        }
    }
    Ok(at)
}

/// How many name lines a name takes.
pub fn lines_taken(_name: &[u8]) -> u64
    ensures { result ≡ lines_taken _name.now }
{
    1
}

/// How many name lines are left of so many.
pub fn lines_left(lines: u32, entries: &[DirEntry]) -> u64
    ensures { result ≡ lines - sum_by (λ entry. lines_taken entry.name) entries.now }
{
    let mut left = u64::from(lines);
    for entry in entries {
        left = left.saturating_sub(lines_taken(entry.name.bytes.as_slice()));
    }
    left
}
