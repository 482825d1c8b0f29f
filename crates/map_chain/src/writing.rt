//! Writing a chain.
ghost use Rattle.std.specs.Prelude.{◌≡◌, ◌≢◌, ◌+◌, ◌*◌, ◌/◌, ◌%◌, ◌<◌, ◌≤◌, ℕ, true, false, length, slice_index};
ghost use Rattle.volume_laws.specs.image_model.Chains.{chain_word as word_of_block, SpellsChain};
ghost use Rattle.volume_laws.specs.image_model.Placed.{block_at, part_at, AreDistinct, AreInDevice, AreSingle, IsOutside};
ghost use Rattle.map_chain.specs.Writes.{HasChainWords, MayWrite, SameOutside, IsWritten};
ghost use Rattle.pm_lines.specs.pm_model.declared.Cell.TheVariants.{Single};
ghost use Rattle.pm_lines.specs.pm_model.Cells.{cell, is_single, flushed, fenced, Settles};
ghost use Rattle.pm_lines.specs.pm_model.Frames.{SameLent, KeepsSingle, LineIsSingle};
ghost use Rattle.pm_lines.specs.pm_model.Images.{IsImage, Follows};
ghost use Rattle.pm_lines.specs.pm_model.Powers.{is_on, Steps};
ghost use Rattle.pm_lines.specs.pm_model.Words.{Words};

use crate::words::{line_words, next_in, part_of};
use extent_map::{Extent, ExtentMap};
use pm_lines::{Pm, Power};

// Stores a word where the device holds another.
fn change_word(pm: &mut Pm, power: &mut Power, word: u64, value: u64)
    requires in_device { word < length pm.old }
    requires single { is_single (cell pm.old word) ≡ true }
    ensures size { length pm.new ≡ length pm.old }
    ensures lent { SameLent pm.old pm.new }
    ensures steps { Steps 1 power.old power.new }
    ensures others { (i : ℕ) → i ≢ word → cell pm.new i ≡ cell pm.old i }
    ensures done { is_on power.new ≡ true → fenced (flushed (cell pm.new word)) ≡ Single value }
{
    if pm.read_word(word) == value {
        return;
    }
    pm.store_word(power, word, value);
}

// Whether the device holds these words in a line.
fn is_held(pm: &Pm, line: u64, words: &[u64; 8]) -> bool
    requires in_device { line < length pm.now / 8 }
    requires single { LineIsSingle line pm.now }
    ensures { result ≡ true → (i : ℕ) → i / 8 ≡ line
        → cell pm.now i ≡ Single (slice_index words.now (i % 8)) }
{
    // It bounds the words' numbers.
    let _ = pm.words();
    for k in 0..8 {
        if pm.read_word(8 * line + k as u64) != words[k] {
            return false;
        }
    }
    true
}

// Stores the words of a line that the device does not hold already, and flushes the line.
fn store_line(pm: &mut Pm, power: &mut Power, line: u64, words: &[u64; 8])
    requires in_device { line < length pm.old / 8 }
    requires single { LineIsSingle line pm.old }
    ensures size { length pm.new ≡ length pm.old }
    ensures lent { SameLent pm.old pm.new }
    ensures steps { Steps 9 power.old power.new }
    ensures others { (i : ℕ) → i / 8 ≢ line → cell pm.new i ≡ cell pm.old i }
    ensures done { is_on power.new ≡ true → (i : ℕ) → i / 8 ≡ line
        → fenced (cell pm.new i) ≡ Single (slice_index words.now (i % 8)) }
{
    // It bounds the words' numbers.
    let _ = pm.words();
    for k in 0..8 {
        change_word(pm, power, 8 * line + k as u64, words[k]);
    }
    pm.flush(power, line);
}

// Stores the words of a line of the chain block with these extents and this next block that the device
// does not hold already, and flushes the line where there are any. Lines are counted from the start of
// the block.
fn write_line(pm: &mut Pm, power: &mut Power, block: u32, line: u64, next: u32, extents: &[Extent])
    requires in_block { line < 64 }
    requires in_device { block < length pm.old / 512 }
    requires room { length extents.now ≤ 255 }
    requires single { LineIsSingle (64 * block + line) pm.old }
    ensures size { length pm.new ≡ length pm.old }
    ensures lent { SameLent pm.old pm.new }
    ensures steps { Steps 9 power.old power.new }
    ensures others { (i : ℕ) → i / 8 ≢ 64 * block + line → cell pm.new i ≡ cell pm.old i }
    ensures done { is_on power.new ≡ true → (i : ℕ) → i / 8 ≡ 64 * block + line
        → fenced (cell pm.new i) ≡ Single (word_of_block next extents.now (i % 512)) }
{
    let line_in_device = 64 * u64::from(block) + line;
    let words = line_words(next, extents, line as usize);
    if is_held(pm, line_in_device, &words) {
        return;
    }
    store_line(pm, power, line_in_device, &words);
}

// Stores and flushes what differs in the chain block with these extents and this next block.
fn write_block(pm: &mut Pm, power: &mut Power, block: u32, next: u32, extents: &[Extent])
    requires in_device { block < length pm.old / 512 }
    requires room { length extents.now ≤ 255 }
    requires single { (i : ℕ) → i / 512 ≡ block → is_single (cell pm.old i) ≡ true }
    ensures size { length pm.new ≡ length pm.old }
    ensures lent { SameLent pm.old pm.new }
    ensures steps { Steps 576 power.old power.new }
    ensures others { (i : ℕ) → i / 512 ≢ block → cell pm.new i ≡ cell pm.old i }
    ensures done { is_on power.new ≡ true → (i : ℕ) → i / 512 ≡ block
        → fenced (cell pm.new i) ≡ Single (word_of_block next extents.now (i % 512)) }
{
    for line in 0..64 {
        write_line(pm, power, block, line, next, extents);
    }
}

// Makes the chain of these extents durable in the blocks.
fn write_blocks(pm: &mut Pm, power: &mut Power, extents: &[Extent], blocks: &[u32])
    requires room { 255 * length blocks.now < length extents.now + 255 }
    requires distinct { AreDistinct blocks.now }
    requires in_device { AreInDevice (length pm.old) blocks.now }
    requires single { AreSingle blocks.now pm.old }
    ensures size { length pm.new ≡ length pm.old }
    ensures lent { SameLent pm.old pm.new }
    ensures steps { Steps (576 * length blocks.now + 1) power.old power.new }
    ensures others { (i : ℕ) → IsOutside blocks.now i → Settles (cell pm.old i) (cell pm.new i) }
    ensures ended { is_on power.new ≡ true → (i : ℕ) → IsOutside blocks.now i
        → cell pm.new i ≡ fenced (cell pm.old i) }
    ensures done { is_on power.new ≡ true → HasChainWords blocks.now extents.now pm.new }
{
    for (k, block) in blocks.iter().enumerate() {
        let part = part_of(extents, k);
        write_block(pm, power, *block, next_in(blocks, k), part);
    }
    pm.fence(power);
}

/// Writes the chain of a map into the blocks, in their order, and makes it durable, in at most 577
/// steps a block and one more: a word is stored where the block holds another, and a line flushed where
/// a word of it was stored. It takes no memory. Without power at the call it does nothing.
///
/// Blocks are counted from the start of the device. There are as many as the map takes
/// (`block_counts::chains_for`), no two of them the same; their words have one candidate each, and
/// hold nothing that is still wanted.
pub fn write(pm: &mut Pm, power: &mut Power, map: &ExtentMap, blocks: &[u32])
    requires ready { is_on power.old ≡ true → MayWrite map.now blocks.now pm.old }
    ensures size { length pm.new ≡ length pm.old }
    ensures lent { SameLent pm.old pm.new }
    ensures steps { Steps (577 * length blocks.now + 1) power.old power.new }
    ensures off { is_on power.old ≡ false → (pm.new ≡ pm.old) × (power.new ≡ power.old) }

    // Wherever the power goes, each image is one of those before, but for words of the blocks.
    ensures each_image { Follows (SameOutside blocks.now) pm.old pm.new }
    ensures others { (i : ℕ) → IsOutside blocks.now i → Settles (cell pm.old i) (cell pm.new i) }

    // With power left, the chain stands in each image, as a read finds it, and it is durable. The
    // last step is a fence, so marks of other words end too.
    ensures durable { is_on power.new ≡ true
        → Follows (IsWritten (length pm.old) map.now blocks.now) pm.old pm.new }
    ensures ended { is_on power.new ≡ true → (i : ℕ) → IsOutside blocks.now i
        → cell pm.new i ≡ fenced (cell pm.old i) }
    ensures keeps { is_on power.new ≡ true → KeepsSingle pm.old pm.new }
{
    if !power.on() {
        return;
    }
    write_blocks(pm, power, map.extents(), blocks);
}
