//! What a call asks for, looked up before it is made.
ghost use Rattle.std.specs.Prelude.{◌≡◌, ◌+◌, ◌/◌, ◌^◌, ◌<◌, ◌≤◌, ℕ, [], IsTrue, IsSome, Some};
ghost use Rattle.k_check.specs.image_model.Volume.{extents, inode};
ghost use Rattle.k_check.specs.extent_model.Extents.{disk_at};
ghost use Rattle.k_check.specs.extent_model.Moves.{IsMapped};
ghost use Rattle.k_split.specs.k_map_plans.Plans.{IsLiveFile, IsStagingFile, MayMove};

use extent_map::ExtentMap;
use k_split::{KSplit, Move};
use layout_model::Kind;

/// Whether an inode is a file in use.
pub fn is_file(k: &KSplit, ino: u32) -> bool
    ensures { IsTrue result → IsLiveFile ino k.now.volume }
{
    match k.node(ino) {
        Some(inode) => match inode.kind {
            Kind::File => true,
            Kind::Free | Kind::Directory | Kind::Staging => false,
        },
        None => false,
    }
}

/// Whether an inode is a staging file, 1 to 4.
pub fn is_staging(k: &KSplit, ino: u32) -> bool
    ensures staging { IsTrue result → IsStagingFile ino k.now.volume }
    ensures least { IsTrue result → 1 ≤ ino }
    ensures most { IsTrue result → ino ≤ 4 }
{
    if ino < 1 || ino > 4 {
        return false;
    }
    match k.node(ino) {
        Some(inode) => match inode.kind {
            Kind::Staging => true,
            Kind::Free | Kind::Directory | Kind::File => false,
        },
        None => false,
    }
}

// Whether each of `count` file blocks from `first` on has a disk block.
fn are_mapped(map: &ExtentMap, first: u32, count: u32) -> bool
    requires { first + count ≤ 8192 }
    ensures { IsTrue result → IsMapped map.now first count }
{
    for block in first..first + count {
        if map.lookup(block).is_none() {
            return false;
        }
    }
    true
}

/// Whether each of `count` file blocks of an inode from `first` on has a disk block.
pub fn blocks_are_there(k: &KSplit, ino: u32, first: u32, count: u32) -> bool
    requires { first + count ≤ 8192 }
    ensures { IsTrue result → IsMapped (extents k.now.volume ino) first count }
{
    match k.map(ino) {
        Some(map) => are_mapped(map, first, count),
        None => false,
    }
}

// Whether each byte of a range of an inode has a disk block.
pub(crate) fn bytes_are_there(k: &KSplit, ino: u32, at: u32, count: u32) -> bool
    ensures { IsTrue result → (p : ℕ) → at ≤ p → p < at + count
        → IsSome (disk_at (extents k.now.volume ino) (p / 4096)) }
{
    if at > 16_777_216 || count > 65_536 {
        return false;
    }
    if count == 0 {
        return true;
    }
    let first = at / 4096;
    let last = (at + count - 1) / 4096;
    blocks_are_there(k, ino, first, last - first + 1)
}

// Whether an inode has no block.
pub(crate) fn is_bare(k: &KSplit, ino: u32) -> bool
    ensures { IsTrue result → extents k.now.volume ino ≡ [] }
{
    match k.map(ino) {
        Some(map) => map.extents().is_empty(),
        None => false,
    }
}

/// Whether `staging` is a staging file, 1 to 4, and has a disk block at its block `block`.
pub fn has_block(k: &KSplit, staging: u32, block: u32) -> bool
    ensures least { IsTrue result → 1 ≤ staging }
    ensures most { IsTrue result → staging ≤ 4 }
    ensures there { IsTrue result
        → (b : ℕ) × (disk_at (extents k.now.volume staging) block ≡ Some b) }
{
    if !is_staging(k, staging) {
        return false;
    }
    match k.map(staging) {
        Some(map) => map.lookup(block).is_some(),
        None => false,
    }
}

// Whether a byte is not before the end of a file, and within the longest one.
pub(crate) fn is_behind(k: &KSplit, ino: u32, from: u64) -> bool
    ensures short { IsTrue result → from ≤ 2 ^ 24 }
    ensures behind { IsTrue result → (inode k.now.volume ino).size ≤ from }
{
    match k.node(ino) {
        Some(inode) => inode.size <= from && from <= 16_777_216,
        None => false,
    }
}

// Whether blocks may go from a staging file to a file.
pub(crate) fn may_move(k: &KSplit, asked: &Move) -> bool
    ensures { IsTrue result → MayMove asked.now k.now.volume }
{
    if asked.staging_block > 4096 || asked.file_block > 4096 || asked.count > 4096 {
        return false;
    }
    is_staging(k, asked.staging)
        && is_file(k, asked.ino)
        && 1 <= asked.count
        && asked.file_block + asked.count <= 4096
        && asked.size <= 16_777_216
        && asked.applied <= 1 << 63
        && blocks_are_there(k, asked.staging, asked.staging_block, asked.count)
}
