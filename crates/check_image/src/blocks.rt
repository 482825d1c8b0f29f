// Rule 8: how often each data block is named, one mark a block.
ghost use Rattle.std.specs.Prelude.{◌≡◌, ◌+◌, ◌<◌, ◌≤◌, ◌==◌, ◌^◌, ℕ, length, All, IfOk, MatchOption};
ghost use Rattle.std.specs.List.{count_by};
ghost use Rattle.k_reading.specs.extent_model.Counts.{one_if};
ghost use Rattle.k_reading.specs.extent_model.Extents.{holds_disk, is_within};
ghost use Rattle.k_reading.specs.block_pool.FreeSets.{LiesWithin};
ghost use Rattle.k_journal.specs.layout_model.Places.{first_data, data_blocks};
ghost use Rattle.k_reading.specs.image_model.Room.{unused_blocks};
ghost use Rattle.k_reading.specs.image_model.Volume.{Volume};
ghost use Rattle.check_image.specs.Marks.{AreMarks, LiesAt, AreFew, IsFirstTwice, chain_uses, map_uses, uses_in};
ghost use Rattle.k_reading.specs.Pools.{AreInData};
ghost use Rattle.check_image.specs.Readings.{AreUseMarks};

use extent_map::{Extent, ExtentMap};
use k_journal::Geometry;
use k_reading::Blocks;
use std::alloc::{AllocError, Global};

// Counts one use more at the place. From two on they are not told apart.
pub(crate) fn mark(marks: &mut [u8], place: usize)
    requires { place < length marks.old }
    ensures { (x : ℕ → ℕ) → AreMarks marks.old x
        → AreMarks marks.new (λ i. x i + one_if (i == place)) }
{
    if marks[place] < 2 {
        marks[place] += 1;
    }
}

// Counts the blocks, the first of which has place 0.
fn mark_blocks(marks: &mut [u8], first: u32, blocks: &[u32])
    requires { All (λ b. LiesAt first (length marks.old) b) blocks.now }
    ensures { (x : ℕ → ℕ) → AreMarks marks.old x
        → AreMarks marks.new (λ i. x i + count_by (λ b. b == first + i) blocks.now) }
{
    for block in blocks {
        mark(marks, (*block - first) as usize);
    }
}

// Counts `count` blocks from the place on.
fn mark_run(marks: &mut [u8], from: usize, count: usize)
    requires { from + count ≤ length marks.old }
    ensures { (x : ℕ → ℕ) → AreMarks marks.old x
        → AreMarks marks.new (λ i. x i + one_if (is_within from count i)) }
{
    for place in from..from + count {
        mark(marks, place);
    }
}

// Counts the disk blocks of the extents.
fn mark_extents(marks: &mut [u8], first: u32, extents: &[Extent])
    requires { All (LiesWithin first (length marks.old)) extents.now }
    ensures { (x : ℕ → ℕ) → AreMarks marks.old x
        → AreMarks marks.new (λ i. x i + count_by (λ e. holds_disk e (first + i)) extents.now) }
{
    for extent in extents {
        mark_run(marks, (extent.disk - first) as usize, extent.count as usize);
    }
}

// Counts the blocks of the chains.
fn mark_chains(marks: &mut [u8], first: u32, chains: &[Blocks])
    requires { All (All (LiesAt first (length marks.old))) chains.now }
    ensures { (x : ℕ → ℕ) → AreMarks marks.old x
        → AreMarks marks.new (λ i. x i + chain_uses chains.now (first + i)) }
{
    for chain in chains {
        mark_blocks(marks, first, &chain.blocks);
    }
}

// Counts the blocks of the maps.
fn mark_maps(marks: &mut [u8], first: u32, maps: &[ExtentMap])
    requires { All (All (LiesWithin first (length marks.old))) maps.now }
    ensures { (x : ℕ → ℕ) → AreMarks marks.old x
        → AreMarks marks.new (λ i. x i + map_uses maps.now (first + i)) }
{
    for map in maps {
        mark_extents(marks, first, map.extents());
    }
}

// Counts the blocks of the chains and the maps.
fn mark_all(marks: &mut [u8], first: u32, chains: &[Blocks], maps: &[ExtentMap])
    requires chains { All (All (LiesAt first (length marks.old))) chains.now }
    requires maps { All (All (LiesWithin first (length marks.old))) maps.now }
    ensures { (x : ℕ → ℕ) → AreMarks marks.old x
        → AreMarks marks.new (λ i. x i + uses_in chains.now maps.now (first + i)) }
{
    mark_chains(marks, first, chains);
    mark_maps(marks, first, maps);
}

/// How often each data block is named by these chains and maps, one mark a block: 0, 1, or 2 for
/// more than once. The work goes by the blocks that are named.
pub(crate) fn count_uses(
    alloc: Global,
    geometry: &Geometry,
    chains: &[Blocks],
    maps: &[ExtentMap],
) -> Result<Vec<u8>, AllocError>
    requires { AreInData geometry.now chains.now maps.now }
    ensures count { IfOk result (λ marks. length marks.items ≡ data_blocks geometry.now) }
    ensures uses { IfOk result (λ marks. AreMarks marks.items
        (λ i. uses_in chains.now maps.now (first_data geometry.now + i))) }
{
    let first = geometry.first_data();
    let mut marks = vec![in alloc; 0u8; geometry.data_blocks() as usize]?;
    mark_all(&mut marks, first, chains, maps);
    Ok(marks)
}

/// The first place with two uses or more.
pub(crate) fn first_twice(marks: &[u8]) -> Option<u32>
    requires { length marks.now < 2 ^ 32 }
    ensures { MatchOption result (AreFew marks.now (length marks.now)) (IsFirstTwice marks.now) }
{
    for (place, mark) in marks.iter().enumerate() {
        if *mark >= 2 {
            return Some(place as u32);
        }
    }
    None
}

// How many places have no use.
fn count_free(marks: &[u8]) -> u32
    requires { length marks.now < 2 ^ 32 }
    ensures { result ≡ count_by (λ n. n == 0) marks.now }
{
    let mut count = 0;
    for mark in marks {
        if *mark == 0 {
            count += 1;
        }
    }
    count
}

/// How many data blocks nothing names, where the marks are those of the uses of a volume's blocks.
pub fn count_unused(marks: &[u8]) -> u32
    requires { length marks.now < 2 ^ 32 }
    ensures { (v : Volume) → AreUseMarks v marks.now → result ≡ unused_blocks v }
{
    count_free(marks)
}
