//! Extents, and when two of them could be one.
ghost use Rattle.std.specs.Prelude.{◌≡◌, ℕ, ◌+◌, ◌-◌, ◌<◌, ◌≤◌, ◌^◌, ◌↔◌, IsTrue, IfSome, IfNone, min, max};
ghost use Rattle.extent_model.specs.Extents.{IsExtent, Continues, ComesAfter};
ghost use Rattle.extent_map.specs.Pieces.{IsPiece};

use extent_model::{Extent, FILE_BLOCKS};

/// Whether the extent has a block, its file blocks are below `FILE_BLOCKS`, and its end on the disk
/// fits 32 bits.
pub(crate) fn is_extent(extent: Extent) -> bool
    ensures { IsTrue result ↔ IsExtent extent }
{
    let file_end = u64::from(extent.file) + u64::from(extent.count);
    let disk_end = u64::from(extent.disk) + u64::from(extent.count);
    extent.count >= 1 && file_end <= u64::from(FILE_BLOCKS) && disk_end <= u64::from(u32::MAX)
}

/// Whether `next` goes on where `extent` ends, in the file and on the disk.
pub(crate) fn is_continued(extent: Extent, next: Extent) -> bool
    requires extent { IsExtent extent }
    ensures { IsTrue result ↔ Continues extent next }
{
    extent.file + extent.count == next.file && extent.disk + extent.count == next.disk
}

/// Whether `next` comes after `extent` in the file, and the two cannot be one.
pub(crate) fn comes_after(extent: Extent, next: Extent) -> bool
    requires extent { IsExtent extent }
    ensures { IsTrue result ↔ ComesAfter extent next }
{
    extent.file + extent.count <= next.file && !is_continued(extent, next)
}

/// The part of an extent from file block `from` on and before `to`, if it has any of these blocks.
pub(crate) fn piece_between(extent: Extent, from: u32, to: u32) -> Option<Extent>
    requires { IsExtent extent }
    ensures piece { IfSome result (λ piece. IsPiece from to extent piece) }
    ensures none { IfNone result (min (extent.file + extent.count) to ≤ max extent.file from) }
{
    let start = extent.file.max(from);
    let end = (extent.file + extent.count).min(to);
    if start < end {
        Some(Extent {
            file: start,
            disk: extent.disk + (start - extent.file),
            count: end - start,
        })
    } else {
        None
    }
}
