//! The entries that are taken away.
ghost use Rattle.std.specs.Prelude.{◌≡◌, false, option_map, IfOk};
ghost use Rattle.layout_model.specs.Tables.{IsAcyclic, IsKeyed};
ghost use Rattle.name_laws.specs.k_split_model.Spaces.{space_of};
ghost use Rattle.k_tables.specs.declared.tables.removing.Entry.{Entry};
ghost use Rattle.k_tables.specs.Found.{IsDirectoryAt, IsEntryAt, IsFileAt, IsTargetAt};
ghost use Rattle.k_tables.specs.Refusals.{entry_rows, errno_row, refusal_of, removal_rows, standing_rows};
ghost use Rattle.posix_tables.specs.NameRows.{rmdir_rows, unlink_rows};
ghost use Rattle.posix_tables.specs.Names.{is_root, node_at_path, too_long};
ghost use Rattle.posix_tables.specs.Outcomes.{first};
ghost use Rattle.name_laws.specs.Paths.{HasDirectory};

use crate::tables::lookups::is_directory;
use crate::tables::refusals::{Refusal, walk_to};
use crate::tables::walks::{has_entries, last};
use k_names::{LONGEST_NAME, NameTable};
use layout_model::Inode;
use posix_tables::entries::{is_root, is_too_long};
use posix_types::{Errno, Path};

/// A name that is there: its directory, its line and the inode that it leads to.
#[derive(Clone, Copy, Debug, PartialEq, Eq)]
pub struct Entry {
    pub parent: u32,
    pub line: u32,
    pub child: u32,
}

// The entry of the last name in its directory.
pub(crate) fn entry_below(
    inodes: &[Inode],
    names: &NameTable,
    path: &Path,
    parent: u32,
) -> Option<Entry>
    requires { HasDirectory (space_of inodes.now names.now) path.now parent }
    ensures target { IsTargetAt inodes.now names.now path.now parent result }
    ensures node { node_at_path (space_of inodes.now names.now) path.now
        ≡ option_map (λ (e : Entry). e.child) result }
    ensures keyed { IsKeyed names.now }
{
    match names.find(parent, last(path)) {
        Some((line, child)) => Some(Entry {
            parent,
            line,
            child,
        }),
        None => None,
    }
}

// The entry of a path that is neither the root's nor too long.
pub(crate) fn entry_in(inodes: &[Inode], names: &NameTable, path: &Path) -> Result<Entry, Refusal>
    requires below { is_root path.now ≡ false }
    requires short { too_long 48 path.now ≡ false }
    ensures answer { refusal_of result
        ≡ first (standing_rows (space_of inodes.now names.now) path.now) }
    ensures found { IfOk result (IsEntryAt inodes.now names.now path.now) }
{
    match walk_to(inodes, names, path) {
        Err(refusal) => Err(refusal),
        Ok(parent) => match entry_below(inodes, names, path, parent) {
            Some(entry) => Ok(entry),
            None => Err(Refusal::Errno(Errno::ENOENT)),
        },
    }
}

// The entry of a path that is not the root's.
fn entry_at(inodes: &[Inode], names: &NameTable, path: &Path) -> Result<Entry, Refusal>
    requires { is_root path.now ≡ false }
    ensures answer { refusal_of result
        ≡ first (entry_rows (space_of inodes.now names.now) path.now) }
    ensures found { IfOk result (IsEntryAt inodes.now names.now path.now) }
{
    if is_too_long(LONGEST_NAME, path) {
        return Err(Refusal::Errno(Errno::ENAMETOOLONG));
    }
    entry_in(inodes, names, path)
}

/// The entry of a file whose name is taken away, or the outcome of the first row of `unlink` that
/// fits.
pub fn entry_to_unlink(inodes: &[Inode], names: &NameTable, path: &Path) -> Result<Entry, Refusal>
    ensures answer { refusal_of result
        ≡ first (unlink_rows (space_of inodes.now names.now) path.now) }
    ensures entry { IfOk result (IsFileAt inodes.now names.now path.now) }
{
    if is_root(path) {
        return Err(Refusal::Errno(Errno::EPERM));
    }
    match entry_at(inodes, names, path) {
        Err(refusal) => Err(refusal),
        Ok(entry) => {
            if is_directory(inodes, entry.child) {
                Err(Refusal::Errno(Errno::EPERM))
            } else {
                Ok(entry)
            }
        }
    }
}

// Why a node is not a directory without entries, if it is none.
fn refused_removal(inodes: &[Inode], names: &NameTable, node: u32) -> Option<Errno>
    requires { IsAcyclic names.now }
    ensures { errno_row result ≡ first (removal_rows (space_of inodes.now names.now) node) }
{
    if !is_directory(inodes, node) {
        return Some(Errno::ENOTDIR);
    }
    if has_entries(names, node) {
        return Some(Errno::ENOTEMPTY);
    }
    None
}

/// The entry of a directory without entries that is taken away, or the outcome of the first row of
/// `rmdir` that fits. No path of names may lead back to where it began.
pub fn directory_to_remove(
    inodes: &[Inode],
    names: &NameTable,
    path: &Path,
) -> Result<Entry, Refusal>
    requires { IsAcyclic names.now }
    ensures answer { refusal_of result
        ≡ first (rmdir_rows (space_of inodes.now names.now) path.now) }
    ensures entry { IfOk result (IsDirectoryAt inodes.now names.now path.now) }
{
    if is_root(path) {
        return Err(Refusal::Errno(Errno::EBUSY));
    }
    match entry_at(inodes, names, path) {
        Err(refusal) => Err(refusal),
        Ok(entry) => match refused_removal(inodes, names, entry.child) {
            Some(errno) => Err(Refusal::Errno(errno)),
            None => Ok(entry),
        },
    }
}
