//! Recovery: the committed records are written to their targets, and the commit word is cleared.
ghost use Rattle.std.specs.Prelude.{◌≡◌, ◌≢◌, ◌+◌, ◌*◌, ◌/◌, ◌%◌, ◌<◌, ◌≤◌, ℕ, true, false, length, MatchOption};
ghost use Rattle.image_layout.specs.layout_model.Journal.{is_journal_word, journaled, record_target, record_word, IsSound};
ghost use Rattle.image_layout.specs.layout_model.Places.{commit_word, is_journaled_line};
ghost use Rattle.k_journal.specs.Recoveries.{IsFirstFault, IfBad, IfNotBad, KeepsView, AreJournaled, AreWithin, AreApart, IsNoTarget, after_records, IsReplayStage};
ghost use Rattle.pm_lines.specs.pm_model.declared.Cell.TheVariants.{Single};
ghost use Rattle.pm_lines.specs.pm_model.Cells.{cell, AllHome, AllSingle};
ghost use Rattle.pm_lines.specs.pm_model.Frames.{SameLent};
ghost use Rattle.pm_lines.specs.pm_model.Images.{IsImage, words_of};
ghost use Rattle.pm_lines.specs.pm_model.Powers.{is_on, Steps};
ghost use Rattle.pm_lines.specs.pm_model.Words.{Words};

use crate::outcomes::Recovered;
use crate::phases::{COMMIT_WORD, set_count};
use crate::records::record_line;
use image_layout::Geometry;
use pm_lines::{Pm, Power};

// Whether the journal may change the line.
fn is_journaled(geometry: &Geometry, line: u64) -> bool
    ensures { result ≡ is_journaled_line geometry.now line }
{
    let inodes = u64::from(geometry.inodes);
    let names = u64::from(geometry.names);
    let first_inode = geometry.inode_line(0);
    let first_name = geometry.name_line(0);
    line == geometry.state_line()
        || (first_inode <= line && line < first_inode + inodes)
        || (first_name <= line && line < first_name + names)
}

// The target of record `index`.
fn target_of(pm: &Pm, index: u32) -> u64
    requires index { index < 128 }
    requires device { 2560 ≤ length pm.now }
    requires single { AllSingle pm.now }
    ensures { result ≡ record_target (words_of pm.now) index }
{
    pm.read_word(8 * record_line(u64::from(index)))
}

// The first of so many records that has no journaled target.
fn first_fault(geometry: &Geometry, count: u32, pm: &Pm) -> Option<u32>
    requires count { count ≤ 128 }
    requires device { 2560 ≤ length pm.now }
    requires single { AllSingle pm.now }
    ensures { MatchOption result (AreJournaled geometry.now count (words_of pm.now))
        (λ index. (index < count) × AreJournaled geometry.now index (words_of pm.now)
        × (is_journaled_line geometry.now (record_target (words_of pm.now) index) ≡ false)) }
{
    for index in 0..count {
        if !is_journaled(geometry, target_of(pm, index)) {
            return Some(index);
        }
    }
    None
}

// Makes record `index` durable in its line.
fn replay_record(index: u32, pm: &mut Pm, power: &mut Power)
    requires index { index < 128 }
    requires device { 2560 ≤ length pm.old }
    requires single { AllSingle pm.old }
    requires target { record_target (words_of pm.old) index < length pm.old / 8 }
    ensures size { length pm.new ≡ length pm.old }
    ensures lent { SameLent pm.old pm.new }
    ensures steps { Steps 10 power.old power.new }
    ensures others { (i : ℕ) → record_target (words_of pm.old) index ≢ i / 8
        → cell pm.new i ≡ cell pm.old i }
    ensures done { is_on power.new ≡ true → (i : ℕ) → record_target (words_of pm.old) index ≡ i / 8
        → cell pm.new i ≡ Single (record_word (words_of pm.old) index (i % 8)) }
{
    let line = target_of(pm, index);
    let bytes = pm.read_line(record_line(u64::from(index)) + 1);
    pm.write_line(power, line, &bytes);
    pm.fence(power);
}

// Makes so many records durable in their lines, the first of them first, as long as there is power.
fn replay(count: u32, pm: &mut Pm, power: &mut Power)
    requires count { count ≤ 128 }
    requires device { 2560 ≤ length pm.old }
    requires single { AllSingle pm.old }
    requires within { AreWithin count (words_of pm.old) (length pm.old) }
    requires apart { AreApart count (words_of pm.old) }
    ensures size { length pm.new ≡ length pm.old }
    ensures lent { SameLent pm.old pm.new }
    ensures steps { Steps (10 * count) power.old power.new }
    ensures others { (i : ℕ) → IsNoTarget count (words_of pm.old) (i / 8)
        → cell pm.new i ≡ cell pm.old i }
    ensures done { is_on power.new ≡ true
        → (i : ℕ) → cell pm.new i ≡ Single (after_records count (words_of pm.old) i) }
{
    for index in 0..count {
        if !power.on() {
            return;
        }
        replay_record(index, pm, power);
    }
}

// Recovers so many records, whose targets are journaled ones, and empties the journal.
fn recover_records(count: u32, pm: &mut Pm, power: &mut Power) -> Recovered
    requires count { count ≤ 128 }
    requires device { 2560 ≤ length pm.old }
    requires single { AllSingle pm.old }
    requires within { AreWithin count (words_of pm.old) (length pm.old) }
    requires apart { AreApart count (words_of pm.old) }
    requires pending { cell pm.old commit_word ≡ Single count }
    ensures size { length pm.new ≡ length pm.old }
    ensures lent { SameLent pm.old pm.new }
    ensures steps { Steps (10 * count + 3) power.old power.new }
    ensures not_bad { IfBad result (λ _. ⊥) }
    ensures done { result ≡ Recovered.Done → is_on power.new ≡ true }
    ensures lost { result ≡ Recovered.PowerLost → is_on power.new ≡ false }
    ensures others { (i : ℕ) → i ≢ commit_word → IsNoTarget count (words_of pm.old) (i / 8)
        → cell pm.new i ≡ cell pm.old i }
    ensures each_image { (image : Words) → IsImage pm.new image
        → IsReplayStage count (words_of pm.old) image }
    ensures words { result ≡ Recovered.Done → (i : ℕ) → i ≢ commit_word
        → cell pm.new i ≡ Single (after_records count (words_of pm.old) i) }
    ensures idle { result ≡ Recovered.Done → cell pm.new commit_word ≡ Single 0 }
{
    replay(count, pm, power);
    if !power.on() {
        return Recovered::PowerLost;
    }
    set_count(0, pm, power);
    if power.on() {
        Recovered::Done
    } else {
        Recovered::PowerLost
    }
}

/// Recovers the journal of a device, so that each committed record stands in its line and the
/// journal is empty. It takes no memory.
///
/// `Bad` comes exactly where the commit word is above 128, or a committed record has no journaled
/// target; nothing is written then. `PowerLost` comes exactly where there is no power at the
/// return, unless the journal is bad.
pub fn recover(pm: &mut Pm, geometry: &Geometry, power: &mut Power) -> Recovered
    requires blocks { length pm.old ≡ 512 * geometry.now.blocks }
    requires single { AllSingle pm.old }
    ensures size { length pm.new ≡ length pm.old }
    ensures home { AllHome pm.new }
    ensures steps { Steps 1283 power.old power.new }
    ensures bad { IfBad result (λ index. IsFirstFault geometry.now (words_of pm.old) index
        × (pm.new ≡ pm.old) × (power.new ≡ power.old)) }
    ensures checked { IfNotBad result (IsSound geometry.now (words_of pm.old)) }
    ensures sound { IsSound geometry.now (words_of pm.old) → IfBad result (λ _. ⊥) }
    ensures done { result ≡ Recovered.Done → is_on power.new ≡ true }
    ensures lost { result ≡ Recovered.PowerLost → is_on power.new ≡ false }
    ensures off { is_on power.old ≡ false → (pm.new ≡ pm.old) × (power.new ≡ power.old) }

    // Wherever the power goes, each image has the same journaled view.
    ensures each_image { (image : Words) → IsImage pm.new image
        → KeepsView geometry.now (words_of pm.old) image }
    ensures others { (i : ℕ) → is_journaled_line geometry.now (i / 8) ≡ false → i ≢ commit_word
        → cell pm.new i ≡ cell pm.old i }

    // Done: each line is as the journal makes it, and the journal is empty.
    ensures words { result ≡ Recovered.Done → (i : ℕ) → is_journal_word i ≡ false
        → cell pm.new i ≡ Single (journaled (words_of pm.old) i) }
    ensures idle { result ≡ Recovered.Done → cell pm.new commit_word ≡ Single 0 }
    ensures keeps { result ≡ Recovered.Done → AllSingle pm.new }
{
    let words = pm.words();
    prove!(words == 512 * u64::from(geometry.blocks));
    let count = pm.read_word(COMMIT_WORD);
    if count > 128 {
        return Recovered::Bad { index: 128 };
    }
    let count = count as u32;
    if let Some(index) = first_fault(geometry, count, pm) {
        return Recovered::Bad { index };
    }
    if !power.on() {
        return Recovered::PowerLost;
    }
    recover_records(count, pm, power)
}
