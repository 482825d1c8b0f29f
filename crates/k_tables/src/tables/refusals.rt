//! Why a call on names is refused, and the rows that the calls share.
ghost use Rattle.std.specs.Prelude.{◌≡◌, false, IfOk};
ghost use Rattle.name_laws.specs.k_split_model.Spaces.{space_of};
ghost use Rattle.k_tables.specs.Refusals.{directory_rows, refusal_of};
ghost use Rattle.posix_tables.specs.NameRows.{walk_row};
ghost use Rattle.posix_tables.specs.Names.{is_root, too_long};
ghost use Rattle.posix_tables.specs.Outcomes.{first};
ghost use Rattle.name_laws.specs.Paths.{HasDirectory};

use crate::tables::walks::parent_of;
use k_names::{LONGEST_NAME, NameTable};
use layout_model::Inode;
use posix_tables::entries::is_too_long;
use posix_types::{Errno, Path, Room};

/// Why a call changes nothing.
#[derive(Clone, Copy, Debug, PartialEq, Eq)]
pub enum Refusal {
    /// The call answers this error.
    Errno(Errno),
    /// ENOSPC: inode lines or name lines are used up.
    Room(Room),
    /// There is nothing to do, and the call answers Ok.
    Idle,
}

// The directory of a path that is neither the root's nor too long.
pub(crate) fn walk_to(inodes: &[Inode], names: &NameTable, path: &Path) -> Result<u32, Refusal>
    requires below { is_root path.now ≡ false }
    requires short { too_long 48 path.now ≡ false }
    ensures answer { refusal_of result ≡ walk_row (space_of inodes.now names.now) path.now }
    ensures found { IfOk result (HasDirectory (space_of inodes.now names.now) path.now) }
{
    match parent_of(inodes, names, path) {
        Ok(parent) => Ok(parent),
        Err(errno) => Err(Refusal::Errno(errno)),
    }
}

// The directory of a path that is not the root's.
pub(crate) fn directory_at(inodes: &[Inode], names: &NameTable, path: &Path) -> Result<u32, Refusal>
    requires { is_root path.now ≡ false }
    ensures answer { refusal_of result
        ≡ first (directory_rows (space_of inodes.now names.now) path.now) }
    ensures found { IfOk result (HasDirectory (space_of inodes.now names.now) path.now) }
{
    if is_too_long(LONGEST_NAME, path) {
        return Err(Refusal::Errno(Errno::ENAMETOOLONG));
    }
    walk_to(inodes, names, path)
}
