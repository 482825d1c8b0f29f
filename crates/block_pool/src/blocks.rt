//! Blocks by their bits: bit i of the words is that of block `first + i`.
ghost use Rattle.std.specs.Prelude.{◌≡◌, ℕ, ◌+◌, ◌*◌, ◌<◌, ◌≤◌, ◌^◌, ◌&&◌, not, length, All, AllPairs, IfOk};
ghost use Rattle.extent_map.specs.extent_model.Counts.{count_below};
ghost use Rattle.extent_map.specs.extent_model.Extents.{covers};
ghost use Rattle.block_pool.specs.Bits.{is_set, IsSetBlock, AreLowest};
ghost use Rattle.block_pool.specs.FreeSets.{is_among, LiesWithin};

use crate::bits::{clear, clear_run, next_set};
use extent_map::Extent;
use std::alloc::{AllocError, Global};

// The blocks of the n lowest bits that are set among the first `count`, in rising order.
pub(crate) fn lowest_blocks(
    alloc: Global,
    words: &[u64],
    first: u32,
    count: u32,
    n: u32,
) -> Result<Vec<u32>, AllocError>
    requires words { count ≤ 64 * length words.now }
    requires fits { first + count < 2 ^ 32 }
    requires enough { n ≤ count_below (is_set words.now) count }
    ensures { IfOk result (λ blocks. AreLowest words.now first count n blocks.items) }
{
    let mut blocks = Vec::with_capacity(alloc, n as usize)?;
    let mut from = 0;
    for _taken in 0..n {
        match next_set(words, from, count as usize) {
            Some(place) => {
                blocks.push(first + place as u32)?;
                from = place + 1;
            }
            None => unreachable!(),
        }
    }
    Ok(blocks)
}

// Clears the bits of blocks that rise and are set.
pub(crate) fn clear_blocks(words: &mut [u64], first: u32, count: u32, blocks: &[u32])
    requires words { count ≤ 64 * length words.old }
    requires rising { AllPairs ◌<◌ blocks.now }
    requires set { All (IsSetBlock words.old first count) blocks.now }
    ensures bits { (p : ℕ) →
        is_set words.new p ≡ (is_set words.old p && not (is_among blocks.now (first + p))) }
    ensures count { count_below (is_set words.new) count + length blocks.now
        ≡ count_below (is_set words.old) count }
{
    for block in blocks {
        clear(words, (*block - first) as usize);
    }
}

// Clears the bits of the disk blocks of extents.
pub(crate) fn clear_extents(words: &mut [u64], first: u32, count: u32, extents: &[Extent])
    requires words { count ≤ 64 * length words.old }
    requires fits { first + count < 2 ^ 32 }
    requires within { All (LiesWithin first count) extents.now }
    ensures { (p : ℕ) →
        is_set words.new p ≡ (is_set words.old p && not (covers extents.now (first + p))) }
{
    for extent in extents {
        clear_run(words, (extent.disk - first) as usize, extent.count as usize);
    }
}
