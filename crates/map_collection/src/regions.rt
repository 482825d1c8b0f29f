//! What a map says of a region, 512 file blocks, taken from its extents at once.
ghost use Rattle.std.specs.Prelude.{◌≡◌, ◌+◌, ◌<◌, ◌%◌, ℕ, get_or, length, if◌then◌else◌, Some, None, IfOk};
ghost use Rattle.extent_map.specs.extent_model.Extents.{disk_at, disk_in, holds, IsExtent};
ghost use Rattle.map_collection.specs.Regions.{region_of};

use extent_map::{Extent, ExtentMap};
use std::alloc::{AllocError, Global};

/// How many file blocks a region has.
pub(crate) const REGION: u32 = 512;

/// How many regions a file has.
pub(crate) const REGIONS: u32 = 8;

/// The number of the region of a file block.
pub(crate) fn region_of(ino: u32, block: u32) -> u64
    ensures { result ≡ region_of ino block }
{
    u64::from(ino) * u64::from(REGIONS) + u64::from(block / REGION)
}

/// The disk block that a region has of a file block.
pub(crate) fn disk_of(disks: &[Option<u32>], block: u32) -> Option<u32>
    ensures { result ≡ get_or disks.now (block % 512) None }
{
    match disks.get((block % REGION) as usize) {
        Some(disk) => *disk,
        None => None,
    }
}

// Gives those blocks of a region that an extent has their disk blocks.
fn lay(disks: &mut [Option<u32>], first: u32, extent: Extent)
    requires extent { IsExtent extent }
    requires size { length disks.old ≡ 512 }
    requires first { first < 4096 }
    ensures blocks { (i : ℕ) → i < 512 → get_or disks.new i None
        ≡ (if holds extent (first + i) then Some (disk_in extent (first + i)) else get_or disks.old i None) }
    ensures size { length disks.new ≡ 512 }
{
    let from = extent.file.max(first);
    let to = (extent.file + extent.count).min(first + REGION);
    for block in from..to {
        disks[(block - first) as usize] = Some(extent.disk + (block - extent.file));
    }
}

/// The disk blocks of the 512 file blocks from one on. The extents are laid from the last to the first,
/// so that the first that has a block gives it.
pub(crate) fn disks_from(
    alloc: Global,
    map: &ExtentMap,
    first: u32,
) -> Result<Vec<Option<u32>>, AllocError>
    requires { first < 4096 }
    ensures { IfOk result (λ disks. (i : ℕ) → i < 512
        → get_or disks.items i None ≡ disk_at map.now (first + i)) }
{
    let mut disks = vec![in alloc; None; REGION as usize]?;
    let extents = map.extents();
    let mut left = extents.len();
    while left > 0 {
        left -= 1;
        lay(&mut disks, first, extents[left]);
    }
    Ok(disks)
}
