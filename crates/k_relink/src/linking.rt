//! The call, and its two steps.
ghost use Rattle.std.specs.Prelude.{◌≡◌, ℕ, ◌+◌, ◌<◌, ◌≤◌, ◌↔◌, All, IfSome, IfNone, IfOk, OnOk};
ghost use Rattle.std.specs.Option.{option_or};
ghost use Rattle.extent_map.specs.extent_model.Extents.{disk_at, IsCanonical};
ghost use Rattle.extent_map.specs.extent_model.Moves.{IsFirstHole, IsMapped, Moves};
ghost use Rattle.k_relink.specs.Steps.{LiesBetween, moved_at};

use extent_map::{Extent, ExtentMap, FILE_BLOCKS};
use std::alloc::{AllocError, Global};
use std::error::Error;
use std::fmt;

/// What a relink leaves.
#[derive(Debug, Drop)]
pub struct Relinked {
    /// The source's map, without the range.
    pub src: ExtentMap,
    /// The target's map, with the range.
    pub dst: ExtentMap,
    /// What the target had in the range.
    pub freed: Vec<Extent>,
}

/// Why nothing was relinked.
#[derive(Clone, Copy, Debug, PartialEq, Eq)]
pub enum RelinkFault {
    /// The source lacks a block of the range; `block` is the first that it lacks, a file block.
    Hole { block: u32 },
    /// Memory is short.
    NoMemory,
}

impl fmt::Display for RelinkFault {
    ghost use Rattle.std.specs.Prelude.{Some};
    ghost use Rattle.k_relink.specs.Texts.{fault_text};

    ghost output = { λ fault. Some (fault_text fault) };

    fn fmt<W: fmt::Write>(&self, f: &mut fmt::Formatter<W>) -> fmt::Result {
        match self {
            RelinkFault::Hole { block } => write!(f, "the source has no disk block at {block}"),
            RelinkFault::NoMemory => write!(f, "out of memory"),
        }
    }
}

impl Error for RelinkFault {}

impl From<AllocError> for RelinkFault {
    ghost use Rattle.std.specs.Prelude.{◌≡◌};
    ghost use Rattle.k_relink.specs.declared.linking.RelinkFault.{RelinkFault};

    ghost from_gives = { λ _ fault. fault ≡ RelinkFault.NoMemory };

    fn from(_error: AllocError) -> RelinkFault {
        RelinkFault::NoMemory
    }
}

/// Moves the disk blocks of `count` file blocks of the source, from `src_block` on, to the target's
/// file blocks from `dst_block` on. Both ranges end by `FILE_BLOCKS`. The maps that are handed in stay
/// as they are, and after an error there are no others.
pub fn relink(
    alloc: Global,
    src: &ExtentMap,
    src_block: u32,
    dst: &ExtentMap,
    dst_block: u32,
    count: u32,
) -> Result<Relinked, RelinkFault>
    requires source { src_block + count ≤ FILE_BLOCKS }
    requires target { dst_block + count ≤ FILE_BLOCKS }
    ensures moved { IfOk result (λ r.
        Moves src_block dst_block count src.now dst.now r.src r.dst r.freed.items) }
    ensures hole { (block : ℕ) →
        (result ≡ Err (RelinkFault.Hole block)) ↔ IsFirstHole src.now src_block count block }
{
    if let Some(block) = first_hole(src, src_block, count) {
        return Err(RelinkFault::Hole { block });
    }
    let mut left = src.copied(alloc)?;
    let moved = left.clear_range(src_block, count)?;
    let mut linked = dst.copied(alloc)?;
    let freed = linked.clear_range(dst_block, count)?;
    lay(&mut linked, &moved, src_block, dst_block, count)?;
    Ok(Relinked {
        src: left,
        dst: linked,
        freed,
    })
}

/// The first of `count` file blocks from `first` on that has no disk block.
fn first_hole(map: &ExtentMap, first: u32, count: u32) -> Option<u32>
    requires { first + count ≤ FILE_BLOCKS }
    ensures some { IfSome result (λ block. IsFirstHole map.now first count block) }
    ensures none { IfNone result (IsMapped map.now first count) }
{
    for block in first..first + count {
        if map.lookup(block).is_none() {
            return Some(block);
        }
    }
    None
}

/// Gives the map the disk blocks of pieces that lie in a range from `from` on, at the blocks from `to`
/// on.
fn lay(
    map: &mut ExtentMap,
    pieces: &[Extent],
    from: u32,
    to: u32,
    count: u32,
) -> Result<(), AllocError>
    requires pieces { IsCanonical pieces.now }
    requires within { All (LiesBetween from count) pieces.now }
    requires room { to + count ≤ FILE_BLOCKS }
    requires map { IsCanonical map.old }
    ensures canonical { IsCanonical map.new }
    ensures blocks { OnOk result ((b : ℕ) →
        disk_at map.new b ≡ option_or (moved_at from to pieces.now b) (disk_at map.old b)) }
{
    for piece in pieces {
        map.replace_range(Extent {
            file: piece.file - from + to,
            disk: piece.disk,
            count: piece.count,
        })?;
    }
    Ok(())
}
