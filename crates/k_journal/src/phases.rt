//! The commit word, and the lines of a batch. Each call ends with a fence.
ghost use Rattle.std.specs.Prelude.{◌≡◌, ◌≢◌, ◌+◌, ◌*◌, ◌/◌, ◌<◌, ◌≤◌, ℕ, true, length};
ghost use Rattle.k_journal.specs.Batch.{target, content, IsDistinct, IsNew};
ghost use Rattle.k_journal.specs.Commits.{TakesAStep};
ghost use Rattle.k_journal.specs.Phases.{IsApart, AreInPlace};
ghost use Rattle.pm_lines.specs.pm_model.declared.Cell.TheVariants.{Single};
ghost use Rattle.pm_lines.specs.pm_model.Cells.{cell, MayHold, Settles};
ghost use Rattle.pm_lines.specs.pm_model.Frames.{SameLent, KeepsSingle, LineIsSingle};
ghost use Rattle.pm_lines.specs.pm_model.Powers.{is_on, Steps};

use crate::batches::Record;
use pm_lines::{Pm, Power};

// The word of the journal that says how many records count, and its line.
pub(crate) const COMMIT_WORD: u64 = 8;

const COMMIT_LINE: u64 = 1;

// Makes the commit word durable.
pub(crate) fn set_count(count: u64, pm: &mut Pm, power: &mut Power)
    requires device { 16 ≤ length pm.old }
    requires single { LineIsSingle 1 pm.old }
    ensures size { length pm.new ≡ length pm.old }
    ensures lent { SameLent pm.old pm.new }
    ensures steps { Steps 3 power.old power.new }
    ensures others { (i : ℕ) → i ≢ 8 → Settles (cell pm.old i) (cell pm.new i) }
    ensures torn { MayHold (cell pm.old 8) count (cell pm.new 8) }
    ensures took { is_on power.new ≡ true → TakesAStep power.old power.new }
    ensures set { is_on power.new ≡ true → cell pm.new 8 ≡ Single count }
    ensures keeps { is_on power.new ≡ true → KeepsSingle pm.old pm.new }
{
    pm.store_word(power, COMMIT_WORD, count);
    pm.flush(power, COMMIT_LINE);
    pm.fence(power);
}

// Makes the content of the entries' lines durable.
pub(crate) fn put_targets(entries: &[Record], pm: &mut Pm, power: &mut Power)
    requires distinct { IsDistinct entries.now }
    requires apart { IsApart entries.now }
    requires in_device { (k : ℕ) → k < length entries.now
        → target entries.now k < length pm.old / 8 }
    requires single { (k : ℕ) → k < length entries.now
        → LineIsSingle (target entries.now k) pm.old }
    ensures size { length pm.new ≡ length pm.old }
    ensures lent { SameLent pm.old pm.new }
    ensures steps { Steps (9 * length entries.now + 1) power.old power.new }
    ensures others { (i : ℕ) → IsNew entries.now (i / 8) → Settles (cell pm.old i) (cell pm.new i) }
    ensures journal { (i : ℕ) → i < 2560 → i / 8 ≢ 2 → Settles (cell pm.old i) (cell pm.new i) }
    ensures targets { is_on power.new ≡ true → AreInPlace entries.now (length entries.now) pm.new }
    ensures keeps { is_on power.new ≡ true → KeepsSingle pm.old pm.new }
{
    for entry in entries {
        pm.write_line(power, entry.line, &entry.bytes);
    }
    pm.fence(power);
}
