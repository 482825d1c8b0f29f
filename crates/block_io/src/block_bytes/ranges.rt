//! A range of a file written over, in the blocks of its map.
ghost use Rattle.std.specs.Prelude.{◌≡◌, ◌≢◌, ◌+◌, ◌*◌, ◌/◌, ◌^◌, ◌<◌, ◌≤◌, ℕ, true, false, length, Some};
ghost use Rattle.extent_map.specs.extent_model.Extents.{disk_at};
ghost use Rattle.pm_lines.specs.pm_model.declared.Cell.TheVariants.{Single};
ghost use Rattle.pm_lines.specs.pm_model.Cells.{cell, fenced, is_single, newest, Settles};
ghost use Rattle.pm_lines.specs.pm_model.Frames.{KeepsSingle, SameLent};
ghost use Rattle.pm_lines.specs.pm_model.Images.{Follows, words_of};
ghost use Rattle.pm_lines.specs.pm_model.Powers.{is_on, Steps};
ghost use Rattle.block_io.specs.Overwrites.{blocks_reached, IsBesideBlocks, IsOverwritten, IsOverwrittenWhole, IsReached, MayOverwrite, word_with};
ghost use Rattle.block_io.specs.Puts.{HoldsEither};

use crate::block_bytes::pieces::store_piece;
use extent_map::ExtentMap;
use pm_lines::{Pm, Power};

// Stores and flushes the bytes of the range that block `m` of the file has. The range begins at byte `first`.
fn store_block(pm: &mut Pm, power: &mut Power, map: &ExtentMap, first: u64, bytes: &[u8], m: u64)
    requires short { first + length bytes.now ≤ 2 ^ 24 }
    requires some { 0 < length bytes.now }
    requires reached { IsReached first (length bytes.now) m }
    requires mapped { (b : ℕ) × (disk_at map.now m ≡ Some b) }
    requires in_device { (b : ℕ) → disk_at map.now m ≡ Some b → 512 * b + 512 ≤ length pm.old }
    requires single { (i : ℕ) → disk_at map.now m ≡ Some (i / 512) → is_single (cell pm.old i) ≡ true }
    ensures size { length pm.new ≡ length pm.old }
    ensures lent { SameLent pm.old pm.new }
    ensures steps { Steps 576 power.old power.new }
    ensures others { (i : ℕ) → disk_at map.now m ≢ Some (i / 512) → cell pm.new i ≡ cell pm.old i }
    ensures each { (i : ℕ) → disk_at map.now m ≡ Some (i / 512) → HoldsEither (newest (cell pm.old i))
        (word_with first bytes.now m (words_of pm.old) i) (cell pm.new i) }
    ensures done { is_on power.new ≡ true → (i : ℕ) → disk_at map.now m ≡ Some (i / 512)
        → fenced (cell pm.new i) ≡ Single (word_with first bytes.now m (words_of pm.old) i) }
{
    let start = 4096 * m;
    let from = first.max(start);
    let to = (first + bytes.len() as u64).min(start + 4096);
    match map.lookup(m as u32) {
        Some(block) => store_piece(
            pm,
            power,
            block,
            (from - start) as u32,
            &bytes[(from - first) as usize..(to - first) as usize],
        ),
        None => unreachable!(),
    }
}

// Stores and flushes the range, block after block.
fn store_range(pm: &mut Pm, power: &mut Power, map: &ExtentMap, first: u64, bytes: &[u8])
    requires some { 0 < length bytes.now }
    requires short { first + length bytes.now ≤ 2 ^ 24 }
    requires may { MayOverwrite map.now first (length bytes.now) pm.old }
    ensures size { length pm.new ≡ length pm.old }
    ensures lent { SameLent pm.old pm.new }
    ensures steps { Steps (576 * blocks_reached first (length bytes.now)) power.old power.new }
    ensures others { (i : ℕ) → ((m : ℕ) → IsReached first (length bytes.now) m → disk_at map.now m ≢ Some (i / 512))
        → cell pm.new i ≡ cell pm.old i }
    ensures each { (m i : ℕ) → IsReached first (length bytes.now) m → disk_at map.now m ≡ Some (i / 512)
        → HoldsEither (newest (cell pm.old i)) (word_with first bytes.now m (words_of pm.old) i) (cell pm.new i) }
    ensures done { is_on power.new ≡ true → (m i : ℕ) → IsReached first (length bytes.now) m
        → disk_at map.now m ≡ Some (i / 512)
        → fenced (cell pm.new i) ≡ Single (word_with first bytes.now m (words_of pm.old) i) }
{
    let end = (first + bytes.len() as u64 - 1) / 4096 + 1;
    for m in first / 4096..end {
        store_block(pm, power, map, first, bytes, m);
    }
}

/// Writes bytes of a file over in place, from byte `first` of it on, and makes them durable: in the
/// disk blocks that its map names, each touched line flushed once, and one fence. It takes no
/// memory; an empty write does nothing, and so does each without power at the call. It takes at most
/// 576 steps a block that the range reaches, and one more; one that puts some byte takes one at least.
///
/// Each block of the range has a disk block of the device, no two have the same, and each word of
/// these has one candidate. A file has at most 16,777,216 bytes.
pub fn write_bytes(pm: &mut Pm, power: &mut Power, map: &ExtentMap, first: u64, bytes: &[u8])
    requires short { first + length bytes.now ≤ 2 ^ 24 }
    requires ready { is_on power.old ≡ true → MayOverwrite map.now first (length bytes.now) pm.old }
    ensures size { length pm.new ≡ length pm.old }
    ensures lent { SameLent pm.old pm.new }
    ensures steps { Steps (576 * blocks_reached first (length bytes.now) + 1) power.old power.new }
    ensures took { is_on power.new ≡ true → 0 < length bytes.now → (given : ℕ)
        → power.old.given ≡ Some given → power.old.taken < power.new.taken }
    ensures off { is_on power.old ≡ false → (pm.new ≡ pm.old) × (power.new ≡ power.old) }

    // Wherever the power goes, each byte of the range is the old one or the new one in each image,
    // and all else is as before.
    ensures each_image { Follows (IsOverwritten map.now first bytes.now) pm.old pm.new }
    ensures others { (i : ℕ) → IsBesideBlocks map.now first (length bytes.now) i
        → Settles (cell pm.old i) (cell pm.new i) }

    // With power left each is the new one, and durable.
    ensures durable { is_on power.new ≡ true
        → Follows (IsOverwrittenWhole map.now first bytes.now) pm.old pm.new }
    ensures keeps { is_on power.new ≡ true → KeepsSingle pm.old pm.new }
{
    if !power.on() || bytes.len() == 0 {
        return;
    }
    store_range(pm, power, map, first, bytes);
    pm.fence(power);
}
