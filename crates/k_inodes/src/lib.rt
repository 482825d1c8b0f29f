//! Inode lines as bytes.
//!
//! An inode line has 64 bytes: the kind in byte 0, the generation in bytes 4 to 7, the size in 8 to
//! 15, `applied` in 16 to 23, the root of the map in 24 to 27 and the number of extents in 28 to
//! 31; all other bytes are 0. The code is exact: a line is read as an inode exactly where it is the
//! spelling of that inode and the inode's fields are ones that its kind may have, and each inode
//! has one spelling (`inode_lines_are_exact`). No call takes memory.
//!
//! Stands on `layout_model` and `image_layout`.
#![tactic(auto)]

ghost use Rattle.std.specs.Prelude.{◌≡◌, ◌<◌, ℕ, List, length, slice_index, true, Some};
ghost use Rattle.image_layout.specs.layout_model.LineLaws.{FitsInode, IsInodeLine};
ghost use Rattle.image_layout.specs.layout_model.Lines.{code_of_kind, kind_of_code, has_map_or_none, is_inode, encode_inode, decode_inode};
ghost use Rattle.image_layout.specs.layout_model.declared.lines.Inode.{Inode};

use block_counts::LONGEST_FILE;
use image_layout::{put_u32, put_u64, u32_at, u64_at};
pub use image_layout::{Geometry, Inode, Kind};

// The greatest order of an entry of the log.
const MOST_APPLIED: u64 = 1 << 63;

fn code_of_kind(kind: Kind) -> u8
    ensures { result ≡ code_of_kind kind }
{
    match kind {
        Kind::Free => 0,
        Kind::Directory => 1,
        Kind::File => 2,
        Kind::Staging => 3,
    }
}

fn kind_of_code(code: u8) -> Option<Kind>
    ensures { result ≡ kind_of_code code }
{
    match code {
        0 => Some(Kind::Free),
        1 => Some(Kind::Directory),
        2 => Some(Kind::File),
        3 => Some(Kind::Staging),
        _ => None,
    }
}

// A root and extents, or neither.
fn has_map_or_none(inode: &Inode) -> bool
    ensures { result ≡ has_map_or_none inode.now }
{
    (inode.root == 0) == (inode.extents == 0)
}

// Whether an inode of its kind may have these fields.
fn is_inode(inode: &Inode) -> bool
    ensures { result ≡ is_inode inode.now }
{
    let has_no_bytes = inode.size == 0 && inode.applied == 0;
    match inode.kind {
        Kind::Free | Kind::Directory => has_no_bytes && inode.root == 0 && inode.extents == 0,
        Kind::File => inode.size <= LONGEST_FILE
            && inode.applied <= MOST_APPLIED
            && has_map_or_none(inode),
        Kind::Staging => has_no_bytes && has_map_or_none(inode),
    }
}

// The line of an inode, whose fields are of their widths.
fn spelled(inode: &Inode) -> [u8; 64]
    ensures line { result ≡ encode_inode inode.now }
    ensures fits { FitsInode inode.now }
{
    let mut line = [0; 64];
    line[0] = code_of_kind(inode.kind);
    put_u32(&mut line, 4, inode.generation);
    put_u64(&mut line, 8, inode.size);
    put_u64(&mut line, 16, inode.applied);
    put_u32(&mut line, 24, inode.root);
    put_u32(&mut line, 28, inode.extents);
    line
}

/// The line that stands for the inode, which is read as that inode where its fields are ones that
/// its kind may have.
pub fn encode_inode(inode: &Inode) -> [u8; 64]
    ensures line { result ≡ encode_inode inode.now }
    ensures read { is_inode inode.now ≡ true → decode_inode result ≡ Some inode.now }
    ensures size { length result ≡ 64 }
    ensures small { (k : ℕ) → slice_index result k < 256 }
{
    spelled(inode)
}

/// The inode that the line stands for; None exactly where it is no inode line.
#[tactic(auto, unfolding(layout_model::specs::Lines::decode_inode))]
pub fn decode_inode(bytes: &[u8; 64]) -> Option<Inode>
    ensures { result ≡ decode_inode bytes.now }
{
    let kind = kind_of_code(bytes[0])?;
    let inode = Inode {
        kind,
        generation: u32_at(bytes, 4),
        size: u64_at(bytes, 8),
        applied: u64_at(bytes, 16),
        root: u32_at(bytes, 24),
        extents: u32_at(bytes, 28),
    };
    if is_inode(&inode) && *bytes == spelled(&inode) {
        Some(inode)
    } else {
        None
    }
}

/// What is spelled is read, and what is read is spelled so.
pub fn inode_lines_are_exact()
    ensures read { (x : Inode) → FitsInode x → is_inode x ≡ true
        → decode_inode (encode_inode x) ≡ Some x }
    ensures spelled { (bytes : List ℕ) (x : Inode) → decode_inode bytes ≡ Some x
        → IsInodeLine bytes x }
{}
