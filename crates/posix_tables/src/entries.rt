//! Words over directory entries and paths.
ghost use Rattle.std.specs.Prelude.{◌≡◌, ◌+◌, ◌-◌, ◌==◌, ◌<◌, ◌≤◌, length, nat_lt, position, unwrap_or, IfOk, OnErr, OnOk};
ghost use Rattle.std.specs.List.{list_any};
ghost use Rattle.posix_tables.specs.Names.{bytes_before, child_of, comes_before, directory_path, has_entries, height, is_below, is_entry, is_named, is_root, last_name, names_in, same_name, too_long, with_entry, without_entry};

use crate::nodes::DirEntry;
use posix_types::{Name, NameList, Path};
use std::alloc::{AllocError, Global};

/// A path has at most so many names.
pub const LONGEST_PATH: usize = 16;

fn has_name(entry: &DirEntry, name: &[u8]) -> bool
    ensures { result ≡ same_name entry.now.name name.now }
{
    entry.name.bytes.as_slice() == name
}

/// The node that a name in a directory leads to.
pub fn child_of(entries: &[DirEntry], parent: usize, name: &[u8]) -> Option<usize>
    ensures { result ≡ child_of entries.now parent name.now }
{
    entries
        .iter()
        .find(|entry| entry.parent == parent && has_name(entry, name))
        .map(|entry| entry.child)
}

/// Whether a directory has entries.
pub fn has_entries(entries: &[DirEntry], parent: usize) -> bool
    ensures { result ≡ has_entries entries.now parent }
{
    entries.iter().any(|entry| entry.parent == parent)
}

/// Whether an entry leads to a node.
pub fn is_named(entries: &[DirEntry], node: usize) -> bool
    ensures { result ≡ is_named entries.now node }
{
    entries.iter().any(|entry| entry.child == node)
}

/// Whether a text stands before another in byte order.
pub fn bytes_before(a: &[u8], b: &[u8]) -> bool
    ensures { result ≡ bytes_before a.now b.now }
{
    a.cmp(b).is_lt()
}

fn name_before(a: &Name, b: &Name) -> bool
    ensures { result ≡ bytes_before a.now b.now }
{
    bytes_before(a.bytes.as_slice(), b.bytes.as_slice())
}

fn comes_before(a: &DirEntry, b: &DirEntry) -> bool
    ensures { result ≡ comes_before a.now b.now }
{
    a.parent < b.parent || (a.parent == b.parent && name_before(&a.name, &b.name))
}

fn place_before(entries: &[DirEntry], entry: &DirEntry) -> Option<usize>
    ensures { result ≡ position (comes_before entry.now) entries.now }
{
    entries.iter().position(|other| comes_before(entry, other))
}

fn place_of(entries: &[DirEntry], parent: usize, name: &[u8]) -> Option<usize>
    ensures { result ≡ position (is_entry parent name.now) entries.now }
{
    entries
        .iter()
        .position(|entry| entry.parent == parent && has_name(entry, name))
}

fn insertion_place(entries: &[DirEntry], entry: &DirEntry) -> usize
    ensures value { result ≡ unwrap_or (position (comes_before entry.now) entries.now) (length entries.now) }
    ensures within { result ≤ length entries.now }
{
    match place_before(entries, entry) {
        Some(place) => place,
        None => entries.len(),
    }
}

/// Puts an entry at its place in the order of the entries.
#[tactic(auto, unfolding(crate::specs::Names::with_entry))]
pub fn insert_entry(entries: &mut Vec<DirEntry>, entry: DirEntry) -> Result<(), AllocError>
    ensures ok { OnOk result (entries.new.items ≡ with_entry entries.old.items entry) }
    ensures err { OnErr result (entries.new.items ≡ entries.old.items) }
{
    let place = insertion_place(entries, &entry);
    entries.insert(place, entry)?;
    Ok(())
}

/// Takes the entry of a name out of a directory, if it is there.
#[tactic(auto, unfolding(crate::specs::Names::without_entry))]
pub fn remove_entry(entries: &mut Vec<DirEntry>, parent: usize, name: &[u8])
    ensures { entries.new.items ≡ without_entry entries.old.items parent name.now }
{
    if let Some(place) = place_of(entries, parent, name) {
        entries.remove(place);
    }
}

/// The names of the entries of a directory, in order.
pub fn names_in(alloc: Global, entries: &[DirEntry], parent: usize) -> Result<NameList, AllocError>
    ensures { IfOk result (λ list. list ≡ names_in entries.now parent) }
{
    let mut names = Vec::new(alloc);
    for entry in entries {
        if entry.parent == parent {
            names.push(entry.name.clone()?)?;
        }
    }
    Ok(NameList { names })
}

/// How many names the longest path below a node has, if it has at most `most`.
#[tactic(auto, using(crate::proofs::Heights::height_none, crate::proofs::Heights::height_more))]
pub fn height(entries: &[DirEntry], most: usize, node: usize) -> usize
    ensures value { result ≡ height entries.now most node }
    ensures bounded { result ≤ most }
{
    if most == 0 {
        return 0;
    }
    let mut deepest = 0;
    for entry in entries {
        if entry.parent == node {
            deepest = deepest.max(height(entries, most - 1, entry.child) + 1);
        }
    }
    deepest
}

/// Whether a path is that of the root.
pub fn is_root(path: &Path) -> bool
    ensures { result ≡ is_root path.now }
{
    path.names.len() == 0
}

/// The last name of a path, and no bytes of the root.
pub fn last_name(path: &Path) -> &[u8]
    ensures { result.now ≡ last_name path.now }
{
    match path.names.last() {
        Some(name) => name.bytes.as_slice(),
        None => &[],
    }
}

/// The names that lead to the directory of a path.
pub fn directory_names(path: &Path) -> &[Name]
    ensures { result.now ≡ directory_path path.now }
{
    match path.names.split_last() {
        Some((_, names)) => names,
        None => &[],
    }
}

fn has_long_name(names: &[Name], longest: usize) -> bool
    ensures { result ≡ list_any (λ name. nat_lt longest (length name)) names.now }
{
    names.iter().any(|name| longest < name.bytes.len())
}

/// Whether a name is longer than `longest` bytes, or there are more than 16 names.
pub fn is_too_long(longest: usize, path: &Path) -> bool
    ensures { result ≡ too_long longest path.now }
{
    has_long_name(path.names.as_slice(), longest) || LONGEST_PATH < path.names.len()
}

/// Whether a path begins with all names of another.
pub fn is_below(path: &Path, ancestor: &Path) -> bool
    ensures { result ≡ is_below path.now ancestor.now }
{
    path.names.starts_with(ancestor.names.as_slice())
}
