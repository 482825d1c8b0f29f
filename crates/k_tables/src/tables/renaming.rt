//! Both entries of a rename.
ghost use Rattle.std.specs.Prelude.{◌≡◌, ◌+◌, ◌&&◌, ◌||◌, ◌<◌, ◌^◌, false, nat_lt, length, option_map, Some, IfOk};
ghost use Rattle.layout_model.specs.Tables.{IsAcyclic, IsKeyed};
ghost use Rattle.name_laws.specs.k_split_model.Spaces.{entries_of, space_of};
ghost use Rattle.k_tables.specs.Found.{IsEntryAt, IsMoving};
ghost use Rattle.k_tables.specs.declared.tables.removing.Entry.{Entry};
ghost use Rattle.k_tables.specs.Refusals.{directory_kind_rows, ends_rows, errno_row, file_kind_rows, has_entries_node, is_directory_node, is_file_node, moving_rows, refusal_of};
ghost use Rattle.posix_tables.specs.NameRows.{rename_kind_rows, rename_rows};
ghost use Rattle.posix_tables.specs.Names.{height, is_root, longest_path, node_at_path};
ghost use Rattle.posix_tables.specs.Outcomes.{first};
ghost use Rattle.name_laws.specs.Paths.{HasDirectory};

use crate::tables::lookups::is_directory;
use crate::tables::refusals::{Refusal, walk_to};
use crate::tables::removing::{Entry, entry_below, entry_in};
use crate::tables::walks::has_entries;
use k_names::{LONGEST_NAME, NameTable};
use layout_model::Inode;
use posix_tables::entries::{LONGEST_PATH, is_below, is_root, is_too_long};
use posix_types::{Errno, Path};

/// A node that gets another path: its entry, the directory of the new path, and the entry that
/// stands there, if one does.
#[derive(Clone, Copy, Debug, PartialEq, Eq)]
pub struct Moving {
    pub entry: Entry,
    pub parent: u32,
    pub target: Option<Entry>,
}

// The entry of the old path, and the directory of the new one.
#[derive(Clone, Copy)]
struct Ends {
    entry: Entry,
    parent: u32,
}

fn is_directory_node(inodes: &[Inode], names: &NameTable, node: Option<u32>) -> bool
    ensures { result ≡ is_directory_node (space_of inodes.now names.now) node }
{
    match node {
        Some(ino) => is_directory(inodes, ino),
        None => false,
    }
}

fn is_file_node(inodes: &[Inode], names: &NameTable, node: Option<u32>) -> bool
    ensures { result ≡ is_file_node (space_of inodes.now names.now) node }
{
    match node {
        Some(ino) => !is_directory(inodes, ino),
        None => false,
    }
}

// Whether a node is a directory with entries.
fn is_full_node(inodes: &[Inode], names: &NameTable, node: Option<u32>) -> bool
    requires { IsAcyclic names.now }
    ensures { result ≡ (is_directory_node (space_of inodes.now names.now) node
        && has_entries_node (space_of inodes.now names.now) node) }
{
    match node {
        Some(ino) => is_directory(inodes, ino) && has_entries(names, ino),
        None => false,
    }
}

fn name_count(path: &Path) -> usize
    ensures count { result ≡ length path.now }
    ensures small { result < 2 ^ 63 }
{
    path.names.len()
}

fn is_either_root(path: &Path, to: &Path) -> bool
    ensures { result ≡ (is_root path.now || is_root to.now) }
{
    is_root(path) || is_root(to)
}

// Whether a path below the node would have more than 16 names.
fn is_too_deep(names: &NameTable, to: &Path, node: u32) -> bool
    requires below { is_root to.now ≡ false }
    requires keyed { IsKeyed names.now }
    requires acyclic { IsAcyclic names.now }
    ensures { result
        ≡ nat_lt longest_path (length to.now + height (entries_of names.now) longest_path node) }
{
    name_count(to) as u64 + u64::from(names.height(node)) > LONGEST_PATH as u64
}

// Why a directory may not have the path.
fn refused_directory(
    inodes: &[Inode],
    names: &NameTable,
    path: &Path,
    to: &Path,
    node: u32,
    target: Option<u32>,
) -> Option<Errno>
    requires below { is_root to.now ≡ false }
    requires keyed { IsKeyed names.now }
    requires acyclic { IsAcyclic names.now }
    ensures { errno_row result ≡ first
        (directory_kind_rows (space_of inodes.now names.now) path.now to.now node target) }
{
    if is_below(to, path) {
        return Some(Errno::EINVAL);
    }
    if is_file_node(inodes, names, target) {
        return Some(Errno::ENOTDIR);
    }
    if is_full_node(inodes, names, target) {
        return Some(Errno::ENOTEMPTY);
    }
    if is_too_deep(names, to, node) {
        return Some(Errno::ENAMETOOLONG);
    }
    None
}

// Why a file may not have the path.
fn refused_file(inodes: &[Inode], names: &NameTable, target: Option<u32>) -> Option<Errno>
    ensures { errno_row result ≡ first (file_kind_rows (space_of inodes.now names.now) target) }
{
    if is_directory_node(inodes, names, target) {
        return Some(Errno::EISDIR);
    }
    None
}

// Why a node may not have the path.
fn refused_kinds(
    inodes: &[Inode],
    names: &NameTable,
    path: &Path,
    to: &Path,
    node: u32,
    target: Option<u32>,
) -> Option<Errno>
    requires below { is_root to.now ≡ false }
    requires keyed { IsKeyed names.now }
    requires acyclic { IsAcyclic names.now }
    requires node { node_at_path (space_of inodes.now names.now) path.now ≡ Some node }
    requires target { node_at_path (space_of inodes.now names.now) to.now ≡ target }
    ensures { errno_row result
        ≡ first (rename_kind_rows (space_of inodes.now names.now) path.now to.now) }
{
    if is_directory(inodes, node) {
        refused_directory(inodes, names, path, to, node, target)
    } else {
        refused_file(inodes, names, target)
    }
}

// The entry of the old path and the directory of the new one, neither of which is the root's.
fn both_ends(inodes: &[Inode], names: &NameTable, path: &Path, to: &Path) -> Result<Ends, Refusal>
    requires below { is_root path.now ≡ false }
    requires to_below { is_root to.now ≡ false }
    ensures answer { refusal_of result
        ≡ first (ends_rows (space_of inodes.now names.now) path.now to.now) }
    ensures entry { IfOk result (λ ends. IsEntryAt inodes.now names.now path.now ends.entry) }
    ensures directory { IfOk result (λ ends.
        HasDirectory (space_of inodes.now names.now) to.now ends.parent) }
{
    if is_too_long(LONGEST_NAME, path) {
        return Err(Refusal::Errno(Errno::ENAMETOOLONG));
    }
    if is_too_long(LONGEST_NAME, to) {
        return Err(Refusal::Errno(Errno::ENAMETOOLONG));
    }
    match entry_in(inodes, names, path) {
        Err(refusal) => Err(refusal),
        Ok(entry) => match walk_to(inodes, names, to) {
            Err(refusal) => Err(refusal),
            Ok(parent) => Ok(Ends { entry, parent }),
        },
    }
}

// The inode of an entry, if there is one.
fn child_of(entry: Option<Entry>) -> Option<u32>
    ensures { result ≡ option_map (λ (e : Entry). e.child) entry }
{
    match entry {
        Some(found) => Some(found.child),
        None => None,
    }
}

// Both entries of a rename whose paths lead to a node and to a directory.
fn moving_to(
    inodes: &[Inode],
    names: &NameTable,
    path: &Path,
    to: &Path,
    ends: Ends,
) -> Result<Moving, Refusal>
    requires acyclic { IsAcyclic names.now }
    requires entry { IsEntryAt inodes.now names.now path.now ends.entry }
    requires directory { HasDirectory (space_of inodes.now names.now) to.now ends.parent }
    ensures answer { refusal_of result
        ≡ first (moving_rows (space_of inodes.now names.now) path.now to.now) }
    ensures moving { IfOk result (IsMoving inodes.now names.now path.now to.now) }
{
    let entry = ends.entry;
    let parent = ends.parent;
    let target = entry_below(inodes, names, to, parent);
    let node = child_of(target);
    if node == Some(entry.child) {
        return Err(Refusal::Idle);
    }
    match refused_kinds(inodes, names, path, to, entry.child, node) {
        Some(errno) => Err(Refusal::Errno(errno)),
        None => Ok(Moving {
            entry,
            parent,
            target,
        }),
    }
}

/// Both entries of a rename: the entry of the old path, and the directory of the new path with what
/// stands there; or the outcome of the first row of `rename` that fits. No path of names may lead
/// back to where it began.
pub fn entries_to_rename(
    inodes: &[Inode],
    names: &NameTable,
    path: &Path,
    to: &Path,
) -> Result<Moving, Refusal>
    requires { IsAcyclic names.now }
    ensures answer { refusal_of result
        ≡ first (rename_rows (space_of inodes.now names.now) path.now to.now) }
    ensures moving { IfOk result (IsMoving inodes.now names.now path.now to.now) }
{
    if is_either_root(path, to) {
        return Err(Refusal::Errno(Errno::EBUSY));
    }
    match both_ends(inodes, names, path, to) {
        Err(refusal) => Err(refusal),
        Ok(ends) => moving_to(inodes, names, path, to, ends),
    }
}
