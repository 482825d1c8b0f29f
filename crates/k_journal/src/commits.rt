//! Commit: the records, the commit word, the targets, and the commit word again, with a fence
//! behind each.
ghost use Rattle.std.specs.Prelude.{◌≡◌, ◌⊎◌, ◌+◌, ◌*◌, ◌/◌, ◌<◌, ◌≤◌, ℕ, true, false, [], length};
ghost use Rattle.image_layout.specs.layout_model.Journal.{is_journal_word};
ghost use Rattle.image_layout.specs.layout_model.Places.{commit_word};
ghost use Rattle.k_journal.specs.Batch.{target, with_batch, IsDistinct, IsNew};
ghost use Rattle.k_journal.specs.Commits.{MayCommit, IsBeforeOrAfter, IsAfter, TakesAStep};
ghost use Rattle.k_journal.specs.Phases.{IsApart, AreRecorded, AreInPlace, IsStage};
ghost use Rattle.pm_lines.specs.pm_model.declared.Cell.TheVariants.{Single};
ghost use Rattle.pm_lines.specs.pm_model.Cells.{cell, is_single, Settles};
ghost use Rattle.pm_lines.specs.pm_model.Frames.{SameLent, KeepsSingle, LineIsSingle};
ghost use Rattle.pm_lines.specs.pm_model.Images.{IsImage, Follows, words_of};
ghost use Rattle.pm_lines.specs.pm_model.Powers.{is_on, Steps};
ghost use Rattle.pm_lines.specs.pm_model.Words.{Words};

use crate::batches::{Batch, Record};
use crate::outcomes::Commit;
use crate::phases::{put_targets, set_count};
use crate::records::put_records;
use image_layout::Geometry;
use pm_lines::{Pm, Power};

// Makes the records durable, and then the commit word.
fn write_journal(entries: &[Record], pm: &mut Pm, power: &mut Power)
    requires room { length entries.now ≤ 128 }
    requires device { 2560 ≤ length pm.old }
    requires idle { cell pm.old commit_word ≡ Single 0 }
    requires single { (i : ℕ) → i < 2560 → is_single (cell pm.old i) ≡ true }
    ensures size { length pm.new ≡ length pm.old }
    ensures lent { SameLent pm.old pm.new }
    ensures steps { Steps (11 * length entries.now + 4) power.old power.new }
    ensures others { (i : ℕ) → is_journal_word i ≡ false → Settles (cell pm.old i) (cell pm.new i) }
    ensures each_image { (image : Words) → IsImage pm.new image → (image commit_word ≡ 0)
        ⊎ ((image commit_word ≡ length entries.now)
        × AreRecorded entries.now (length entries.now) pm.new) }
    ensures count { is_on power.new ≡ true → cell pm.new commit_word ≡ Single (length entries.now) }
    ensures recorded { is_on power.new ≡ true
        → AreRecorded entries.now (length entries.now) pm.new }
    ensures keeps { is_on power.new ≡ true → KeepsSingle pm.old pm.new }
{
    put_records(entries, pm, power);
    if power.on() {
        set_count(entries.len() as u64, pm, power);
    }
}

// Makes the lines durable, and then the empty journal.
fn apply_journal(entries: &[Record], pm: &mut Pm, power: &mut Power)
    requires room { length entries.now ≤ 128 }
    requires distinct { IsDistinct entries.now }
    requires device { 2560 ≤ length pm.old }
    requires in_device { (k : ℕ) → k < length entries.now
        → target entries.now k < length pm.old / 8 }
    requires apart { IsApart entries.now }
    requires single { (i : ℕ) → i < 2560 → is_single (cell pm.old i) ≡ true }
    requires single_lines { (k : ℕ) → k < length entries.now
        → LineIsSingle (target entries.now k) pm.old }
    requires count { cell pm.old commit_word ≡ Single (length entries.now) }
    requires recorded { AreRecorded entries.now (length entries.now) pm.old }
    ensures size { length pm.new ≡ length pm.old }
    ensures lent { SameLent pm.old pm.new }
    ensures steps { Steps (9 * length entries.now + 4) power.old power.new }
    ensures took { is_on power.new ≡ true → TakesAStep power.old power.new }
    ensures others { (i : ℕ) → is_journal_word i ≡ false → IsNew entries.now (i / 8)
        → Settles (cell pm.old i) (cell pm.new i) }
    ensures recorded { AreRecorded entries.now (length entries.now) pm.new }
    ensures each_image { (image : Words) → IsImage pm.new image
        → (image commit_word ≡ length entries.now)
        ⊎ ((image commit_word ≡ 0) × AreInPlace entries.now (length entries.now) pm.new) }
    ensures count { is_on power.new ≡ true → cell pm.new commit_word ≡ Single 0 }
    ensures done { is_on power.new ≡ true → AreInPlace entries.now (length entries.now) pm.new }
    ensures keeps { is_on power.new ≡ true → KeepsSingle pm.old pm.new }
{
    put_targets(entries, pm, power);
    if power.on() {
        set_count(0, pm, power);
    }
}

// Sets the entries' lines in one transaction.
fn commit_entries(entries: &[Record], pm: &mut Pm, power: &mut Power) -> Commit
    requires room { length entries.now ≤ 128 }
    requires distinct { IsDistinct entries.now }
    requires device { 2560 ≤ length pm.old }
    requires in_device { (k : ℕ) → k < length entries.now
        → target entries.now k < length pm.old / 8 }
    requires apart { IsApart entries.now }
    requires idle { cell pm.old commit_word ≡ Single 0 }
    requires single { (i : ℕ) → i < 2560 → is_single (cell pm.old i) ≡ true }
    requires single_lines { (k : ℕ) → k < length entries.now
        → LineIsSingle (target entries.now k) pm.old }
    ensures size { length pm.new ≡ length pm.old }
    ensures lent { SameLent pm.old pm.new }
    ensures steps { Steps (20 * length entries.now + 8) power.old power.new }
    ensures took { result ≡ Commit.Done → TakesAStep power.old power.new }
    ensures done { result ≡ Commit.Done → is_on power.new ≡ true }
    ensures lost { result ≡ Commit.PowerLost → is_on power.new ≡ false }
    ensures others { (i : ℕ) → is_journal_word i ≡ false → IsNew entries.now (i / 8)
        → Settles (cell pm.old i) (cell pm.new i) }
    ensures each_image { (image : Words) → IsImage pm.new image
        → IsStage entries.now pm.old pm.new image }
    ensures idle { result ≡ Commit.Done → cell pm.new commit_word ≡ Single 0 }
    ensures targets { result ≡ Commit.Done → AreInPlace entries.now (length entries.now) pm.new }
    ensures keeps { result ≡ Commit.Done → KeepsSingle pm.old pm.new }
{
    write_journal(entries, pm, power);
    if !power.on() {
        return Commit::PowerLost;
    }
    apply_journal(entries, pm, power);
    if power.on() {
        Commit::Done
    } else {
        Commit::PowerLost
    }
}

/// Sets the batch's lines in one transaction: the records, the commit word, the lines, and then the
/// commit word 0, each made durable before the next is begun. It takes no memory. Without power at
/// the call it does nothing.
///
/// `Done` empties the batch; `PowerLost` keeps it.
pub fn commit(batch: &mut Batch, pm: &mut Pm, geometry: &Geometry, power: &mut Power) -> Commit
    requires ready { is_on power.old ≡ true → MayCommit geometry.now batch.old pm.old }
    ensures size { length pm.new ≡ length pm.old }
    ensures lent { SameLent pm.old pm.new }
    ensures steps { Steps (32 * length batch.old + 16) power.old power.new }
    ensures took { result ≡ Commit.Done → 0 < length batch.old
        → TakesAStep power.old power.new }
    ensures done { result ≡ Commit.Done → is_on power.new ≡ true }
    ensures lost { result ≡ Commit.PowerLost → is_on power.new ≡ false }
    ensures off { is_on power.old ≡ false → (pm.new ≡ pm.old) × (power.new ≡ power.old) }

    // Wherever the power goes, each image recovers to all of the old lines or all of the new ones.
    ensures each_image { Follows (IsBeforeOrAfter geometry.now batch.old) pm.old pm.new }
    ensures others { (i : ℕ) → is_journal_word i ≡ false → IsNew batch.old (i / 8)
        → Settles (cell pm.old i) (cell pm.new i) }

    // Done: each image has the new lines, they are durable, and the journal is empty.
    ensures durable { result ≡ Commit.Done
        → Follows (IsAfter geometry.now batch.old) pm.old pm.new }
    ensures lines { result ≡ Commit.Done → AreInPlace batch.old (length batch.old) pm.new }
    ensures words { result ≡ Commit.Done → (i : ℕ) → is_journal_word i ≡ false
        → is_single (cell pm.old i) ≡ true
        → cell pm.new i ≡ Single (with_batch batch.old (words_of pm.old) i) }
    ensures idle { result ≡ Commit.Done → cell pm.new commit_word ≡ Single 0 }
    ensures keeps { result ≡ Commit.Done → KeepsSingle pm.old pm.new }
    ensures empty { result ≡ Commit.Done → batch.new ≡ [] }
    ensures kept { result ≡ Commit.PowerLost → batch.new ≡ batch.old }
{
    if !power.on() {
        return Commit::PowerLost;
    }
    let words = pm.words();
    prove!(words == 512 * u64::from(geometry.blocks));
    let outcome = commit_entries(batch.entries(), pm, power);
    if outcome == Commit::Done {
        batch.clear();
    }
    outcome
}
