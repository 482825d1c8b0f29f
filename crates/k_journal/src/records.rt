//! The records of the journal.
ghost use Rattle.std.specs.Prelude.{◌≡◌, ◌≢◌, ◌+◌, ◌*◌, ◌/◌, ◌%◌, ◌<◌, ◌≤◌, ℕ, true, length};
ghost use Rattle.image_layout.specs.layout_model.Places.{record_line};
ghost use Rattle.k_journal.specs.Batch.{target, content};
ghost use Rattle.k_journal.specs.Phases.{AreRecorded};
ghost use Rattle.pm_lines.specs.pm_model.declared.Cell.TheVariants.{Single};
ghost use Rattle.pm_lines.specs.pm_model.Cells.{cell, is_single, fenced, Settles};
ghost use Rattle.pm_lines.specs.pm_model.Frames.{SameLent, KeepsSingle};
ghost use Rattle.pm_lines.specs.pm_model.Powers.{is_on, Steps};
ghost use Rattle.pm_lines.specs.pm_model.Words.{word_at};

use crate::batches::Record;
use pm_lines::{Pm, Power};

// The line of record `index`, which holds the target; the next line holds the content.
pub(crate) fn record_line(index: u64) -> u64
    requires { index < 128 }
    ensures { result ≡ record_line index }
{
    64 + 2 * index
}

// Stores and flushes record `index`.
fn put_record(entry: &Record, index: u64, pm: &mut Pm, power: &mut Power)
    requires index { index < 128 }
    requires device { 2560 ≤ length pm.old }
    requires single { (i : ℕ) → 512 + 16 * index ≤ i → i < 528 + 16 * index
        → is_single (cell pm.old i) ≡ true }
    ensures size { length pm.new ≡ length pm.old }
    ensures lent { SameLent pm.old pm.new }
    ensures steps { Steps 11 power.old power.new }
    ensures others { (i : ℕ) → i ≢ 8 * record_line index → i / 8 ≢ record_line index + 1
        → cell pm.new i ≡ cell pm.old i }
    ensures target { is_on power.new ≡ true
        → fenced (cell pm.new (8 * record_line index)) ≡ Single entry.now.line }
    ensures content { is_on power.new ≡ true → (i : ℕ) → i / 8 ≡ record_line index + 1
        → fenced (cell pm.new i) ≡ Single (word_at entry.now.bytes (i % 8)) }
{
    let line = record_line(index);
    pm.store_word(power, 8 * line, entry.line);
    pm.flush(power, line);
    pm.write_line(power, line + 1, &entry.bytes);
}

// Makes the records of the entries durable.
pub(crate) fn put_records(entries: &[Record], pm: &mut Pm, power: &mut Power)
    requires room { length entries.now ≤ 128 }
    requires device { 2560 ≤ length pm.old }
    requires single { (i : ℕ) → 512 ≤ i → i < 2560 → is_single (cell pm.old i) ≡ true }
    ensures size { length pm.new ≡ length pm.old }
    ensures lent { SameLent pm.old pm.new }
    ensures steps { Steps (11 * length entries.now + 1) power.old power.new }
    ensures below { (i : ℕ) → i < 512 → Settles (cell pm.old i) (cell pm.new i) }
    ensures above { (i : ℕ) → 2560 ≤ i → Settles (cell pm.old i) (cell pm.new i) }
    ensures recorded { is_on power.new ≡ true
        → AreRecorded entries.now (length entries.now) pm.new }
    ensures keeps { is_on power.new ≡ true → KeepsSingle pm.old pm.new }
{
    for (index, entry) in entries.iter().enumerate() {
        put_record(entry, index as u64, pm, power);
    }
    pm.fence(power);
}
