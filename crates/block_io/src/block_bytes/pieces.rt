//! Bytes of one block: words stored, lines flushed.
ghost use Rattle.std.specs.Prelude.{◌≡◌, ◌≢◌, ◌+◌, ◌*◌, ◌/◌, ◌^◌, ◌<◌, ◌≤◌, ℕ, true, length};
ghost use Rattle.pm_lines.specs.pm_model.declared.Cell.TheVariants.{Single};
ghost use Rattle.pm_lines.specs.pm_model.Cells.{cell, fenced, is_single, newest};
ghost use Rattle.pm_lines.specs.pm_model.Frames.{LineIsSingle, SameLent};
ghost use Rattle.pm_lines.specs.pm_model.Images.{words_of};
ghost use Rattle.pm_lines.specs.pm_model.Powers.{is_on, Steps};
ghost use Rattle.block_io.specs.Puts.{HoldsEither, with_bytes};

use crate::block_bytes::words::{is_reached, put_word};
use pm_lines::{Pm, Power};

// Stores the words of a line that the bytes from byte `place` of the device on reach, and flushes the line.
fn store_line(pm: &mut Pm, power: &mut Power, line: u64, place: u64, bytes: &[u8])
    requires in_device { line < length pm.old / 8 }
    requires fits { line < 2 ^ 38 }
    requires range { place + length bytes.now < 2 ^ 64 }
    requires single { LineIsSingle line pm.old }
    ensures size { length pm.new ≡ length pm.old }
    ensures lent { SameLent pm.old pm.new }
    ensures steps { Steps 9 power.old power.new }
    ensures others { (i : ℕ) → i / 8 ≢ line → cell pm.new i ≡ cell pm.old i }
    ensures each { (i : ℕ) → i / 8 ≡ line → HoldsEither (newest (cell pm.old i))
        (with_bytes place bytes.now (words_of pm.old) i) (cell pm.new i) }
    ensures done { is_on power.new ≡ true → (i : ℕ) → i / 8 ≡ line
        → fenced (cell pm.new i) ≡ Single (with_bytes place bytes.now (words_of pm.old) i) }
{
    for k in 0..8 {
        let word = 8 * line + k;
        if is_reached(place, bytes.len() as u64, word) {
            let old = pm.read_word(word);
            pm.store_word(power, word, put_word(old, word, place, bytes));
        }
    }
    pm.flush(power, line);
}

// Stores bytes into a block, from byte `from` of it on, and flushes each line that it touches once.
pub(crate) fn store_piece(pm: &mut Pm, power: &mut Power, block: u32, from: u32, bytes: &[u8])
    requires in_device { 512 * block + 512 ≤ length pm.old }
    requires some { 0 < length bytes.now }
    requires short { from + length bytes.now ≤ 4096 }
    requires single { (i : ℕ) → i / 512 ≡ block → is_single (cell pm.old i) ≡ true }
    ensures size { length pm.new ≡ length pm.old }
    ensures lent { SameLent pm.old pm.new }
    ensures steps { Steps 576 power.old power.new }
    ensures others { (i : ℕ) → i / 512 ≢ block → cell pm.new i ≡ cell pm.old i }
    ensures each { (i : ℕ) → i / 512 ≡ block → HoldsEither (newest (cell pm.old i))
        (with_bytes (4096 * block + from) bytes.now (words_of pm.old) i) (cell pm.new i) }
    ensures done { is_on power.new ≡ true → (i : ℕ) → i / 512 ≡ block
        → fenced (cell pm.new i) ≡ Single (with_bytes (4096 * block + from) bytes.now (words_of pm.old) i) }
{
    let place = 4096 * u64::from(block) + u64::from(from);
    let first = place / 64;
    let end = (place + bytes.len() as u64 - 1) / 64 + 1;
    for line in first..end {
        store_line(pm, power, line, place, bytes);
    }
}
