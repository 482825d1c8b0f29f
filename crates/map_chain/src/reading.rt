//! Reading a chain.
ghost use Rattle.std.specs.Prelude.{◌≡◌, ◌+◌, ◌*◌, ◌/◌, ◌%◌, ◌^◌, ◌<◌, ◌≤◌, ◌↔◌, ℕ, length, IsTrue, IfOk, IfSome, IfNone, vec_len, List};
ghost use Rattle.std.specs.List.{flat_map};
ghost use Rattle.std.specs.Option.{IsSomeAnd};
ghost use Rattle.extent_map.specs.extent_model.declared.extent_words.Extent.{Extent};
ghost use Rattle.block_counts.specs.Counts.{chains_for};
ghost use Rattle.volume_laws.specs.image_model.Chains.{chain_word as word_of_block, next_block as block_behind, extents_in, blocks_from};
ghost use Rattle.volume_laws.specs.image_model.Placed.{block_at, part_at, AreDistinct, AreInDevice, BlockIsHome, AreHome, StandsIn};
ghost use Rattle.volume_laws.specs.image_model.Listed.{AreListed};
ghost use Rattle.volume_laws.specs.image_model.Standing.{IsMapIn, IsChain, HasNoMap, HasNoChain};
ghost use Rattle.pm_lines.specs.pm_model.Images.{words_of};

use crate::words::{EXTENTS_PER_BLOCK, chain_word, next_in, part_of};
use block_counts::chains_for;
use extent_map::{Extent, ExtentMap, FILE_BLOCKS};
use pm_lines::Pm;
use std::alloc::{AllocError, Global};

/// A map that was read, and the blocks of its chain in their order.
#[derive(Debug, Drop)]
pub struct Chain {
    /// The map.
    pub map: ExtentMap,
    /// The blocks of the device that the map stands in; the first is the root.
    pub blocks: Vec<u32>,
}

// The two halves of a word.
fn low_half(word: u64) -> u32
    ensures { result ≡ word % 2 ^ 32 }
{
    (word % (1 << 32)) as u32
}

fn high_half(word: u64) -> u32
    ensures { result ≡ word / 2 ^ 32 }
{
    (word >> 32) as u32
}

// Word `j` of a block.
fn word_in(pm: &Pm, block: u32, j: u64) -> u64
    requires in_block { j < 512 }
    requires in_device { block < length pm.now / 512 }
    requires home { BlockIsHome block pm.now }
    ensures { result ≡ words_of pm.now (512 * block + j) }
{
    pm.read_word(512 * u64::from(block) + j)
}

// The block that a chain block names as the next.
fn next_block(pm: &Pm, block: u32) -> u32
    requires in_device { block < length pm.now / 512 }
    requires home { BlockIsHome block pm.now }
    ensures { result ≡ block_behind (words_of pm.now) block }
{
    low_half(word_in(pm, block, 0))
}

// So many blocks from `root` on, each the next of the one before, where all are in the device.
fn linked_blocks(
    alloc: Global,
    pm: &Pm,
    root: u32,
    count: u32,
) -> Result<Option<Vec<u32>>, AllocError>
    requires home { AreHome (blocks_from (words_of pm.now) root count) pm.now }
    ensures count { IfOk result (λ found. IfSome found (λ blocks. vec_len blocks ≡ count)) }
    ensures linked { IfOk result (λ found. IfSome found (λ blocks.
        blocks.items ≡ blocks_from (words_of pm.now) root count)) }
    ensures in_device { IfOk result (λ found. IfSome found (λ blocks.
        AreInDevice (length pm.now) blocks.items)) }
    ensures none { IfOk result (λ found. IfNone found
        (¬ AreInDevice (length pm.now) (blocks_from (words_of pm.now) root count))) }
{
    let device_blocks = pm.words() / 512;
    let mut blocks = Vec::new(alloc);
    let mut block = root;
    for _place in 0..count {
        if u64::from(block) >= device_blocks {
            return Ok(None);
        }
        blocks.push(block)?;
        block = next_block(pm, block);
    }
    Ok(Some(blocks))
}

// The extent at place `k` of a chain block, as far as its words fit one.
fn listed_extent(pm: &Pm, block: u32, k: usize) -> Extent
    requires in_block { k < 255 }
    requires in_device { block < length pm.now / 512 }
    requires home { BlockIsHome block pm.now }
    ensures file { result.file ≡ words_of pm.now (512 * block + (2 + 2 * k)) % 2 ^ 32 }
    ensures disk { result.disk ≡ words_of pm.now (512 * block + (2 + 2 * k)) / 2 ^ 32 }
    ensures count { result.count ≡ words_of pm.now (512 * block + (3 + 2 * k)) % 2 ^ 32 }
{
    let first = 2 + 2 * k as u64;
    let run = word_in(pm, block, first);
    Extent {
        file: low_half(run),
        disk: high_half(run),
        count: low_half(word_in(pm, block, first + 1)),
    }
}

// So many extents from the blocks.
fn listed_extents(
    alloc: Global,
    pm: &Pm,
    blocks: &[u32],
    count: u32,
) -> Result<Vec<Extent>, AllocError>
    requires room { count ≤ 255 * length blocks.now }
    requires in_device { AreInDevice (length pm.now) blocks.now }
    requires home { AreHome blocks.now pm.now }
    ensures count { IfOk result (λ es. vec_len es ≡ count) }
    ensures listed { IfOk result (λ es. AreListed (words_of pm.now) blocks.now es.items) }
{
    let mut listed = Vec::with_capacity(alloc, count as usize)?;
    for k in 0..count as usize {
        let block = blocks[k / EXTENTS_PER_BLOCK];
        listed.push(listed_extent(pm, block, k % EXTENTS_PER_BLOCK))?;
    }
    Ok(listed)
}

// Whether the block has the words of the chain block with these extents and this next block.
fn is_block(pm: &Pm, block: u32, next: u32, extents: &[Extent]) -> bool
    requires room { length extents.now ≤ 255 }
    requires in_device { block < length pm.now / 512 }
    requires home { BlockIsHome block pm.now }
    ensures { IsTrue result ↔ ((j : ℕ) → j < 512
        → words_of pm.now (512 * block + j) ≡ word_of_block next extents.now j) }
{
    for j in 0..512 {
        if word_in(pm, block, j) != chain_word(next, extents, j as usize) {
            return false;
        }
    }
    true
}

// Whether the extents stand in the blocks, and nothing else.
fn is_spelled(pm: &Pm, blocks: &[u32], extents: &[Extent]) -> bool
    requires room { length extents.now ≤ 255 * length blocks.now }
    requires filled { 255 * length blocks.now < length extents.now + 255 }
    requires in_device { AreInDevice (length pm.now) blocks.now }
    requires home { AreHome blocks.now pm.now }
    ensures { IsTrue result ↔ StandsIn (words_of pm.now) blocks.now extents.now }
{
    for (k, block) in blocks.iter().enumerate() {
        if !is_block(pm, *block, next_in(blocks, k), part_of(extents, k)) {
            return false;
        }
    }
    true
}

// The map of so many extents that stands in the blocks, if one does.
fn map_in(
    alloc: Global,
    pm: &Pm,
    blocks: &[u32],
    extents: u32,
) -> Result<Option<ExtentMap>, AllocError>
    requires count { length blocks.now ≡ chains_for extents }
    requires in_device { AreInDevice (length pm.now) blocks.now }
    requires home { AreHome blocks.now pm.now }
    ensures map { IfOk result (λ found. IfSome found
        (IsMapIn (words_of pm.now) blocks.now extents)) }
    ensures none { IfOk result (λ found. IfNone found
        (HasNoMap (words_of pm.now) blocks.now extents)) }
{
    let listed = listed_extents(alloc, pm, blocks, extents)?;
    if !is_spelled(pm, blocks, &listed) {
        return Ok(None);
    }
    Ok(ExtentMap::from_extents(alloc, &listed)?)
}

/// The map of so many extents that stands as a chain in the blocks from `root` on, with these
/// blocks. None where no such map does: where the chain leads to a block outside the device, where
/// an extent or another word is not as the one spelling of a map of so many extents has it.
///
/// Blocks are counted from the start of the device, and no word of those that the chain leads to is
/// lent. Nothing is written. It takes memory for 17 blocks and 4,096 extents at most.
pub fn read(alloc: Global, pm: &Pm, root: u32, extents: u32) -> Result<Option<Chain>, AllocError>
    requires home { AreHome (blocks_from (words_of pm.now) root (chains_for extents)) pm.now }
    ensures chain { IfOk result (λ found. IfSome found (λ chain.
        IsChain (words_of pm.now) (length pm.now) root extents chain.blocks.items chain.map)) }
    ensures map { IfOk result (λ found. IfSome found (λ chain.
        flat_map (extents_in (words_of pm.now)) chain.blocks.items ≡ chain.map)) }
    ensures distinct { IfOk result (λ found. IfSome found (λ chain.
        AreDistinct chain.blocks.items)) }
    ensures found { (blocks : List ℕ) (es : List Extent)
        → IsChain (words_of pm.now) (length pm.now) root extents blocks es
        → IfOk result (λ found. IsSomeAnd found (λ chain.
        (chain.blocks.items ≡ blocks) × (chain.map ≡ es))) }
    ensures none { IfOk result (λ found. IfNone found
        (HasNoChain (words_of pm.now) (length pm.now) root extents)) }
{
    // No map has more.
    if extents > FILE_BLOCKS {
        return Ok(None);
    }
    let count = chains_for(u64::from(extents)) as u32;
    let Some(blocks) = linked_blocks(alloc, pm, root, count)? else {
        return Ok(None);
    };
    let Some(map) = map_in(alloc, pm, &blocks, extents)? else {
        return Ok(None);
    };
    Ok(Some(Chain { map, blocks }))
}
