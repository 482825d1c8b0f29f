//! Which disk block a file block has in the volume at which the device stands.
ghost use Rattle.std.specs.Prelude.{◌≡◌, ◌≢◌, ◌+◌, ◌*◌, ◌/◌, ◌%◌, ◌^◌, ◌<◌, ℕ, List, length, true, false, None, Some};
ghost use Rattle.pm_lines.specs.pm_model.Images.{words_of};
ghost use Rattle.k_plans.specs.extent_model.declared.extent_words.Extent.{Extent};
ghost use Rattle.k_plans.specs.extent_model.Extents.{disk_at, disk_in, holds};
ghost use Rattle.k_plans.specs.image_model.Chains.{next_block as block_behind};
ghost use Rattle.k_plans.specs.image_model.Placed.{AreHome, BlockIsHome};
ghost use Rattle.k_plans.specs.image_model.Standing.{IsChain};
ghost use Rattle.k_plans.specs.image_model.Volume.{extents, Volume};
ghost use Rattle.k_plans.specs.k_split_model.Stands.{Stands};

use extent_map::Extent;
use k_inodes::{Geometry, decode_inode};
use pm_lines::Pm;

// Word `j` of a block.
fn word_in(pm: &Pm, block: u32, j: u64) -> u64
    requires in_block { j < 512 }
    requires in_device { block < length pm.now / 512 }
    requires home { BlockIsHome block pm.now }
    ensures { result ≡ words_of pm.now (512 * block + j) }
{
    pm.read_word(512 * u64::from(block) + j)
}

// The extent at place `k` of a chain block, as far as its words fit one.
fn listed_extent(pm: &Pm, block: u32, k: u32) -> Extent
    requires in_block { k < 255 }
    requires in_device { block < length pm.now / 512 }
    requires home { BlockIsHome block pm.now }
    ensures file { result.file ≡ words_of pm.now (512 * block + (2 + 2 * k)) % 2 ^ 32 }
    ensures disk { result.disk ≡ words_of pm.now (512 * block + (2 + 2 * k)) / 2 ^ 32 }
    ensures count { result.count ≡ words_of pm.now (512 * block + (3 + 2 * k)) % 2 ^ 32 }
{
    let first = 2 + 2 * u64::from(k);
    let run = word_in(pm, block, first);
    Extent {
        file: (run % (1 << 32)) as u32,
        disk: (run >> 32) as u32,
        count: (word_in(pm, block, first + 1) % (1 << 32)) as u32,
    }
}

// The block of the chain in which the extent behind extent `k` stands: each has 255.
fn block_of_next(pm: &Pm, block: u32, k: u32) -> u32
    requires in_device { block < length pm.now / 512 }
    requires home { BlockIsHome block pm.now }
    ensures moves { k % 255 ≡ 254 → result ≡ block_behind (words_of pm.now) block }
    ensures stays { k % 255 ≢ 254 → result ≡ block }
{
    if k % 255 == 254 {
        return (word_in(pm, block, 0) % (1 << 32)) as u32;
    }
    block
}

// The disk block that an extent gives a file block; None where it does not have that block.
fn disk_of(extent: &Extent, block: u32) -> Option<u32>
    requires fits { extent.now.disk + extent.now.count < 2 ^ 32 }
    ensures some { holds extent.now block ≡ true → result ≡ Some (disk_in extent.now block) }
    ensures none { holds extent.now block ≡ false → result ≡ None }
{
    if block < extent.file {
        return None;
    }
    let place = block - extent.file;
    if place >= extent.count {
        return None;
    }
    Some(extent.disk + place)
}

// The disk block of a file block in the map of so many extents that stands as a chain in the blocks
// from `root` on; None where it is a hole. No word of the chain is lent.
fn mapped_block(pm: &Pm, root: u32, count: u32, block: u32) -> Option<u32>
    requires chain { (blocks : List ℕ) × (es : List Extent)
        × IsChain (words_of pm.now) (length pm.now) root count blocks es × AreHome blocks pm.now }
    ensures { (blocks : List ℕ) (es : List Extent)
        → IsChain (words_of pm.now) (length pm.now) root count blocks es → result ≡ disk_at es block }
{
    let mut at = root;
    for k in 0..count {
        let extent = listed_extent(pm, at, k % 255);
        match disk_of(&extent, block) {
            Some(disk) => return Some(disk),
            None => {}
        }
        at = block_of_next(pm, at, k);
    }
    None
}

/// The disk block of a file block of an inode in the volume at which the device stands; None where it
/// is a hole. It takes no memory.
pub fn standing_block(pm: &Pm, geometry: &Geometry, ino: u32, block: u32) -> Option<u32>
    requires size { length pm.now ≡ 512 * geometry.now.blocks }
    requires stands { (u : Volume) × Stands geometry.now u pm.now }
    requires below { ino < geometry.now.inodes }
    ensures { (u : Volume) → Stands geometry.now u pm.now → result ≡ disk_at (extents u ino) block }
{
    prove!(geometry.blocks >= 64);
    match decode_inode(&pm.read_line(geometry.inode_line(ino))) {
        Some(inode) => mapped_block(pm, inode.root, inode.extents, block),
        None => unreachable!(),
    }
}
