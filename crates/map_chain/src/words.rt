//! The words of a chain's blocks.
ghost use Rattle.std.specs.Prelude.{◌≡◌, ◌+◌, ◌*◌, ◌/◌, ◌%◌, ◌^◌, ◌<◌, ◌≤◌, ℕ, length, slice_index};
ghost use Rattle.volume_laws.specs.image_model.Placed.{part_at};
ghost use Rattle.volume_laws.specs.image_model.Chains.{extent_word, chain_word};

use extent_map::Extent;

// The extents that a block has room for.
pub(crate) const EXTENTS_PER_BLOCK: usize = 255;

// A word of two halves.
fn word_of_halves(low: u32, high: u32) -> u64
    ensures { result ≡ low + 2 ^ 32 * high }
{
    u64::from(low) + (u64::from(high) << 32)
}

// Word `j` behind the first two of the chain block with these extents.
fn extent_word(extents: &[Extent], j: usize) -> u64
    ensures { result ≡ extent_word extents.now j }
{
    let k = j / 2;
    if k >= extents.len() {
        return 0;
    }
    let extent = extents[k];
    if j % 2 == 0 {
        word_of_halves(extent.file, extent.disk)
    } else {
        u64::from(extent.count)
    }
}

// Word `j` of the chain block with these extents and this next block.
#[tactic(auto, unfolding(image_model::specs::Chains::chain_word))]
pub(crate) fn chain_word(next: u32, extents: &[Extent], j: usize) -> u64
    requires { length extents.now ≤ 255 }
    ensures { result ≡ chain_word next extents.now j }
{
    if j == 0 {
        word_of_halves(next, extents.len() as u32)
    } else if j == 1 {
        0
    } else {
        extent_word(extents, j - 2)
    }
}

// The words of a line of the chain block with these extents and this next block. Behind the extents
// all are zero.
pub(crate) fn line_words(next: u32, extents: &[Extent], line: usize) -> [u64; 8]
    requires room { length extents.now ≤ 255 }
    requires in_block { line < 64 }
    ensures { (k : ℕ) → k < 8 → slice_index result k ≡ chain_word next extents.now (8 * line + k) }
{
    let mut words = [0; 8];
    if 2 * extents.len() + 2 <= 8 * line {
        return words;
    }
    for k in 0..8 {
        words[k] = chain_word(next, extents, 8 * line + k);
    }
    words
}

// The block behind block `k` of a chain, 0 behind the last.
pub(crate) fn next_in(blocks: &[u32], k: usize) -> u32
    requires { k < length blocks.now }
    ensures { result ≡ slice_index blocks.now (k + 1) }
{
    if k + 1 < blocks.len() {
        blocks[k + 1]
    } else {
        0
    }
}

// The extents that stand in block `k` of their chain.
pub(crate) fn part_of(extents: &[Extent], k: usize) -> &[Extent]
    requires { 255 * k ≤ length extents.now }
    ensures part { result.now ≡ part_at extents.now k }
    ensures few { length result.now ≤ 255 }
{
    let from = EXTENTS_PER_BLOCK * k;
    let to = extents.len().min(from + EXTENTS_PER_BLOCK);
    &extents[from..to]
}
