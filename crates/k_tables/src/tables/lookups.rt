//! Look-ups in the inodes.
ghost use Rattle.std.specs.Prelude.{◌≡◌, ◌<◌, ◌^◌, length, position, IfSome};
ghost use Rattle.layout_model.specs.declared.lines.Inode.{Inode};
ghost use Rattle.name_laws.specs.k_split_model.Spaces.{is_directory_in, is_free};

use layout_model::{Inode, Kind};

/// Whether the inode is a directory; one that is not in the table is none.
pub fn is_directory(inodes: &[Inode], ino: u32) -> bool
    ensures { result ≡ is_directory_in inodes.now ino }
{
    let place = ino as usize;
    if place >= inodes.len() {
        return false;
    }
    match inodes[place].kind {
        Kind::Directory => true,
        Kind::Free | Kind::File | Kind::Staging => false,
    }
}

fn is_free(inode: &Inode) -> bool
    ensures { result ≡ is_free inode.now.kind }
{
    match inode.kind {
        Kind::Free => true,
        Kind::Directory | Kind::File | Kind::Staging => false,
    }
}

fn first_free(inodes: &[Inode]) -> Option<usize>
    ensures lowest { result ≡ position (λ (x : Inode). is_free x.kind) inodes.now }
    ensures within { IfSome result (λ ino. ino < length inodes.now) }
{
    inodes.iter().position(|inode| is_free(inode))
}

/// The lowest free inode, None where none is free. The inodes 0 to 4 of a checked image never are.
pub fn free_inode(inodes: &[Inode]) -> Option<u32>
    requires { length inodes.now < 2 ^ 32 }
    ensures lowest { result ≡ position (λ (x : Inode). is_free x.kind) inodes.now }
    ensures within { IfSome result (λ ino. ino < length inodes.now) }
{
    match first_free(inodes) {
        Some(ino) => Some(ino as u32),
        None => None,
    }
}
