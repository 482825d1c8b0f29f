//! Lines set to zero.
ghost use Rattle.std.specs.Prelude.{◌≡◌, ◌≢◌, ◌+◌, ◌*◌, ◌/◌, ◌^◌, ◌≤◌, ◌<◌, ℕ, true, false, length};
ghost use Rattle.pm_lines.specs.pm_model.declared.Cell.TheVariants.{Single};
ghost use Rattle.pm_lines.specs.pm_model.Cells.{cell, fenced, flushed, is_single, Settles};
ghost use Rattle.pm_lines.specs.pm_model.Frames.{KeepsSingle, LineIsSingle, SameLent};
ghost use Rattle.pm_lines.specs.pm_model.Images.{Follows};
ghost use Rattle.pm_lines.specs.pm_model.Powers.{is_on, Steps};
ghost use Rattle.block_io.specs.Overwrites.{AreGoingToZero, AreLinesZeroed, GoesToZero, IsInLines, MayZeroLines, SameBesideLines};

use pm_lines::{Pm, Power};

// Stores zero into a word that is none, and says whether it was none.
fn clear_word(pm: &mut Pm, power: &mut Power, word: u64) -> bool
    requires in_device { word < length pm.old }
    requires single { is_single (cell pm.old word) ≡ true }
    ensures size { length pm.new ≡ length pm.old }
    ensures lent { SameLent pm.old pm.new }
    ensures steps { Steps 1 power.old power.new }
    ensures others { (i : ℕ) → i ≢ word → cell pm.new i ≡ cell pm.old i }
    ensures same { result ≡ false → cell pm.new word ≡ cell pm.old word }
    ensures going { GoesToZero (cell pm.old word) (cell pm.new word) }
    ensures done { is_on power.new ≡ true → fenced (flushed (cell pm.new word)) ≡ Single 0 }
{
    if pm.read_word(word) == 0 {
        return false;
    }
    pm.store_word(power, word, 0);
    true
}

// Stores zeros into the words of a line that are none, and flushes the line where there were any. The
// next fence makes them durable.
fn clear_line(pm: &mut Pm, power: &mut Power, line: u64)
    requires in_device { line < length pm.old / 8 }
    requires single { LineIsSingle line pm.old }
    ensures size { length pm.new ≡ length pm.old }
    ensures lent { SameLent pm.old pm.new }
    ensures steps { Steps 9 power.old power.new }
    ensures others { (i : ℕ) → i / 8 ≢ line → cell pm.new i ≡ cell pm.old i }
    ensures going { (i : ℕ) → i / 8 ≡ line → GoesToZero (cell pm.old i) (cell pm.new i) }
    ensures done { is_on power.new ≡ true → (i : ℕ) → i / 8 ≡ line
        → fenced (cell pm.new i) ≡ Single 0 }
{
    // It bounds the words' numbers.
    let _ = pm.words();
    let mut changed = false;
    for k in 0..8 {
        changed |= clear_word(pm, power, 8 * line + k);
    }
    if changed {
        pm.flush(power, line);
    }
}

// Stores and flushes zeros in the lines, where they have other words.
pub(crate) fn clear_lines(pm: &mut Pm, power: &mut Power, first: u64, count: u64)
    requires small { first + count < 2 ^ 60 }
    requires may { MayZeroLines first count pm.old }
    ensures size { length pm.new ≡ length pm.old }
    ensures lent { SameLent pm.old pm.new }
    ensures steps { Steps (9 * count) power.old power.new }
    ensures others { (i : ℕ) → ¬ IsInLines first count i → cell pm.new i ≡ cell pm.old i }
    ensures going { (i : ℕ) → IsInLines first count i → GoesToZero (cell pm.old i) (cell pm.new i) }
    ensures done { is_on power.new ≡ true → (i : ℕ) → IsInLines first count i
        → fenced (cell pm.new i) ≡ Single 0 }
{
    for line in first..first + count {
        clear_line(pm, power, line);
    }
}

/// Sets `count` lines from line `first` on to zero and makes that durable, with one fence. Nothing is
/// wanted of them any more. It takes no memory; without power at the call it does nothing. It takes at
/// most 9 steps a line, and one more: a word that is not zero is stored, and a line flushed where it
/// had one.
///
/// Lines are counted from the start of the device. Each of their words has one candidate.
pub fn zero_lines(pm: &mut Pm, power: &mut Power, first: u64, count: u64)
    requires small { first + count < 2 ^ 60 }
    requires ready { is_on power.old ≡ true → MayZeroLines first count pm.old }
    ensures size { length pm.new ≡ length pm.old }
    ensures lent { SameLent pm.old pm.new }
    ensures steps { Steps (9 * count + 1) power.old power.new }
    ensures off { is_on power.old ≡ false → (pm.new ≡ pm.old) × (power.new ≡ power.old) }

    // Wherever the power goes, each image is one of those before, but for words of the lines.
    ensures each_image { Follows (SameBesideLines first count) pm.old pm.new }
    ensures others { (i : ℕ) → ¬ IsInLines first count i → Settles (cell pm.old i) (cell pm.new i) }

    // And each of those is on its way to zero, or all are zero, and durable.
    ensures words { AreGoingToZero first count pm.old pm.new }

    // With power left each of their words is zero, and durable.
    ensures durable { is_on power.new ≡ true → Follows (AreLinesZeroed first count) pm.old pm.new }
    ensures keeps { is_on power.new ≡ true → KeepsSingle pm.old pm.new }
{
    if !power.on() {
        return;
    }
    clear_lines(pm, power, first, count);
    pm.fence(power);
}
