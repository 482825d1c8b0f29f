//! Where a node is made.
ghost use Rattle.std.specs.Prelude.{◌≡◌, ◌<◌, ◌^◌, length, IfOk};
ghost use Rattle.name_laws.specs.k_split_model.Spaces.{space_of};
ghost use Rattle.k_tables.specs.Found.{HasRoomAt, IsPlace};
ghost use Rattle.k_tables.specs.Refusals.{refusal_of, room_rows, new_rows};
ghost use Rattle.posix_tables.specs.NameRows.{mkdir_rows};
ghost use Rattle.posix_tables.specs.Outcomes.{first};
ghost use Rattle.name_laws.specs.Paths.{HasDirectory};

use crate::tables::lookups::free_inode;
use crate::tables::refusals::{Refusal, directory_at};
use crate::tables::walks::{child, last};
use k_names::NameTable;
use layout_model::Inode;
use posix_tables::entries::is_root;
use posix_types::{Errno, Path, Room, What};

/// Where a node is made: its directory, the free inode and the free name line that it takes.
#[derive(Clone, Copy, Debug, PartialEq, Eq)]
pub struct Place {
    pub parent: u32,
    pub ino: u32,
    pub line: u32,
}

// A free inode and a free name line.
fn room_for(inodes: &[Inode], names: &NameTable, path: &Path, parent: u32) -> Result<Place, Refusal>
    requires { length inodes.now < 2 ^ 32 }
    ensures answer { refusal_of result
        ≡ first (room_rows (space_of inodes.now names.now) path.now) }
    ensures room { IfOk result (HasRoomAt inodes.now names.now) }
    ensures parent { IfOk result (λ place. place.parent ≡ parent) }
{
    let Some(ino) = free_inode(inodes) else {
        return Err(Refusal::Room(Room {
            what: What::Nodes,
            need: 1,
            room: 0,
        }));
    };
    let Some(line) = names.free_line() else {
        return Err(Refusal::Room(Room {
            what: What::Names,
            need: 1,
            room: 0,
        }));
    };
    Ok(Place { parent, ino, line })
}

// A place for a new name in its directory.
fn place_in(inodes: &[Inode], names: &NameTable, path: &Path, parent: u32) -> Result<Place, Refusal>
    requires size { length inodes.now < 2 ^ 32 }
    requires directory { HasDirectory (space_of inodes.now names.now) path.now parent }
    ensures answer { refusal_of result
        ≡ first (new_rows (space_of inodes.now names.now) path.now) }
    ensures place { IfOk result (IsPlace inodes.now names.now path.now) }
{
    match child(names, parent, last(path)) {
        Some(_) => Err(Refusal::Errno(Errno::EEXIST)),
        None => room_for(inodes, names, path, parent),
    }
}

/// Where a node of this path is made: in the directory of the path, which has no such name, in the
/// lowest free inode, with the lowest free name line; or the outcome of the first row of `mkdir`
/// that fits. So it is also where `open` makes a file, once its own rows before these fit not.
pub fn place_to_make(inodes: &[Inode], names: &NameTable, path: &Path) -> Result<Place, Refusal>
    requires { length inodes.now < 2 ^ 32 }
    ensures answer { refusal_of result
        ≡ first (mkdir_rows (space_of inodes.now names.now) path.now) }
    ensures place { IfOk result (IsPlace inodes.now names.now path.now) }
{
    if is_root(path) {
        return Err(Refusal::Errno(Errno::EEXIST));
    }
    match directory_at(inodes, names, path) {
        Ok(parent) => place_in(inodes, names, path, parent),
        Err(refusal) => Err(refusal),
    }
}
