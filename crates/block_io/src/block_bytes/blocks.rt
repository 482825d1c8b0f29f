//! Whole blocks: set to zero, read.
ghost use Rattle.std.specs.Prelude.{◌≡◌, ◌≢◌, ◌+◌, ◌*◌, ◌/◌, ◌<◌, ℕ, true, false, length, slice_index};
ghost use Rattle.k_split_model.specs.image_model.Placed.{block_at, BlockIsHome, IsOutside};
ghost use Rattle.pm_lines.specs.pm_model.declared.Cell.TheVariants.{Single};
ghost use Rattle.pm_lines.specs.pm_model.Cells.{cell, fenced, is_single, Settles};
ghost use Rattle.pm_lines.specs.pm_model.Frames.{KeepsSingle, SameLent};
ghost use Rattle.pm_lines.specs.pm_model.Images.{Follows, words_of};
ghost use Rattle.pm_lines.specs.pm_model.Powers.{is_on, Steps};
ghost use Rattle.pm_lines.specs.pm_model.Words.{byte_of};
ghost use Rattle.block_io.specs.Overwrites.{IsZeroed, MayZero, SameBeside};

use crate::block_bytes::lines::clear_lines;
use pm_lines::{Pm, Power};

// Stores and flushes zeros in a block, where it has other words.
fn clear_block(pm: &mut Pm, power: &mut Power, block: u32)
    requires in_device { block < length pm.old / 512 }
    requires single { (i : ℕ) → i / 512 ≡ block → is_single (cell pm.old i) ≡ true }
    ensures size { length pm.new ≡ length pm.old }
    ensures lent { SameLent pm.old pm.new }
    ensures steps { Steps 576 power.old power.new }
    ensures others { (i : ℕ) → i / 512 ≢ block → cell pm.new i ≡ cell pm.old i }
    ensures done { is_on power.new ≡ true → (i : ℕ) → i / 512 ≡ block
        → fenced (cell pm.new i) ≡ Single 0 }
{
    // It bounds the lines' numbers.
    let _ = pm.words();
    clear_lines(pm, power, 64 * u64::from(block), 64);
}

// Stores and flushes zeros in the blocks, where they have other words.
fn clear_all(pm: &mut Pm, power: &mut Power, blocks: &[u32])
    requires may { MayZero blocks.now pm.old }
    ensures size { length pm.new ≡ length pm.old }
    ensures lent { SameLent pm.old pm.new }
    ensures steps { Steps (576 * length blocks.now) power.old power.new }
    ensures others { (i : ℕ) → IsOutside blocks.now i → cell pm.new i ≡ cell pm.old i }
    ensures done { is_on power.new ≡ true → (k i : ℕ) → k < length blocks.now
        → i / 512 ≡ block_at blocks.now k → fenced (cell pm.new i) ≡ Single 0 }
{
    for block in blocks {
        clear_block(pm, power, *block);
    }
}

/// Sets blocks to zero and makes that durable, with one fence. Nothing is wanted of them any more. It
/// takes no memory; without power at the call it does nothing. It takes at most 576 steps a block, and
/// one more: a word that is not zero is stored, and a line flushed where it had one.
///
/// Blocks are counted from the start of the device. No two are the same, and each of their words has one
/// candidate.
pub fn zero_blocks(pm: &mut Pm, power: &mut Power, blocks: &[u32])
    requires ready { is_on power.old ≡ true → MayZero blocks.now pm.old }
    ensures size { length pm.new ≡ length pm.old }
    ensures lent { SameLent pm.old pm.new }
    ensures steps { Steps (576 * length blocks.now + 1) power.old power.new }
    ensures off { is_on power.old ≡ false → (pm.new ≡ pm.old) × (power.new ≡ power.old) }

    // Wherever the power goes, each image is one of those before, but for words of the blocks.
    ensures each_image { Follows (SameBeside blocks.now) pm.old pm.new }
    ensures others { (i : ℕ) → IsOutside blocks.now i → Settles (cell pm.old i) (cell pm.new i) }

    // With power left each of their words is zero, and durable.
    ensures durable { is_on power.new ≡ true → Follows (IsZeroed blocks.now) pm.old pm.new }
    ensures keeps { is_on power.new ≡ true → KeepsSingle pm.old pm.new }
{
    if !power.on() {
        return;
    }
    clear_all(pm, power, blocks);
    pm.fence(power);
}

/// Reads a block: of each word what was stored last. The block is counted from the start of the device,
/// and no word of it is lent.
pub fn read_block(pm: &Pm, block: u32, out: &mut [u8; 4096])
    requires in_device { block < length pm.now / 512 }
    requires home { BlockIsHome block pm.now }
    ensures { (k : ℕ) → k < 4096 → slice_index out.new k ≡ byte_of (words_of pm.now) (4096 * block + k) }
{
    for word in 0..512 {
        let eight = pm
            .read_word(512 * u64::from(block) + word as u64)
            .to_le_bytes();
        for j in 0..8 {
            out[8 * word + j] = eight[j];
        }
    }
}
