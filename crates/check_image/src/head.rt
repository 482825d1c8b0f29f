// Rules 1 to 4 and 11: the length, block 0 and the journal.
ghost use Rattle.std.specs.Prelude.{◌≡◌, ◌≢◌, ◌↔◌, ◌+◌, ◌*◌, ◌/◌, ◌%◌, ◌^◌, ◌<◌, ◌≤◌, ℕ, true, false, length, IsTrue, OnOk, IfOk, IfErr, MatchOption};
ghost use Rattle.k_journal.specs.layout_model.Journal.{committed, journaled, record_target};
ghost use Rattle.k_journal.specs.layout_model.Places.{base_word, commit_word, state_line, is_journaled_line};
ghost use Rattle.k_reading.specs.image_model.Broken.{Holds, HoldAll, FailsFirst, below, head_rules};
ghost use Rattle.k_reading.specs.image_model.Checked.{HasHead};
ghost use Rattle.k_reading.specs.image_model.Rules.{geometry_of, IsWholeBlocks, HasMagic, HasVersion, HasNumbers, HasTarget, HasState};
ghost use Rattle.check_image.specs.Answers.{IsFirstOf};
ghost use Rattle.check_image.specs.Heads.{IsSuperKept, block_0_rules, journal_rules};
ghost use Rattle.k_journal.specs.pm_model.Cells.{AllHome};
ghost use Rattle.k_journal.specs.pm_model.Images.{words_of};
ghost use Rattle.k_journal.specs.pm_model.Words.{line_bytes};

use crate::faults::BadImage;
use crate::view::{committed, target_of, view_word};
use k_journal::{Geometry, SuperFault, read_superblock};
use pm_lines::Pm;

// The word of the log base.
const BASE_WORD: u64 = 16;

// The line of the log base.
const STATE_LINE: u64 = 2;

// The word of the number of committed records.
const COMMIT_WORD: u64 = 8;

// Rule 1: whether so many words, whole blocks of them, are the words of 64 to 16,384 blocks.
fn has_whole_blocks(words: u64) -> bool
    requires { words % 512 ≡ 0 }
    ensures { IsTrue result ↔ IsWholeBlocks (8 * words) }
{
    let blocks = words / 512;
    if blocks < 64 || blocks > 16_384 {
        return false;
    }
    true
}

// Rules 2, 3 and the first part of 4: the geometry of the superblock.
fn read_head(pm: &Pm) -> Result<Geometry, BadImage>
    requires device { 32768 ≤ length pm.now }
    requires home { AllHome pm.now }
    ensures geometry { IfOk result (λ g. g ≡ geometry_of (words_of pm.now)) }
    ensures ok { OnOk result (IsSuperKept (line_bytes (words_of pm.now) 0)) }
    ensures bad { IfErr result (IsFirstOf (block_0_rules (8 * length pm.now) (words_of pm.now))) }
{
    match read_superblock(&pm.read_line(0)) {
        Ok(geometry) => Ok(geometry),
        Err(SuperFault::Magic) => Err(BadImage { rule: 2, place: 0 }),
        Err(SuperFault::Version) => Err(BadImage { rule: 3, place: 0 }),
        Err(SuperFault::Numbers) => Err(BadImage { rule: 4, place: 0 }),
    }
}

// Whether the words behind the log base are zero, as the journal makes them.
fn is_state_zero(pm: &Pm) -> bool
    requires device { 32768 ≤ length pm.now }
    requires home { AllHome pm.now }
    requires whole { length pm.now % 512 ≡ 0 }
    ensures { IsTrue result ↔ ((w : ℕ) → base_word < w → w < base_word + 8
        → journaled (words_of pm.now) w ≡ 0) }
{
    for word in BASE_WORD + 1..BASE_WORD + 8 {
        if view_word(pm, word) != 0 {
            return false;
        }
    }
    true
}

// Whether the other words of block 0 are zero.
fn are_others_zero(pm: &Pm) -> bool
    requires device { 32768 ≤ length pm.now }
    requires home { AllHome pm.now }
    ensures { IsTrue result ↔ ((w : ℕ) → 8 ≤ w → w < 512 → w ≢ commit_word → w / 8 ≢ state_line
        → words_of pm.now w ≡ 0) }
{
    for word in 8..512 {
        let is_free = word != COMMIT_WORD && word / 8 != STATE_LINE;
        if is_free && pm.read_word(word) != 0 {
            return false;
        }
    }
    true
}

// Whether the journal may change the line.
fn is_journaled(geometry: &Geometry, line: u64) -> bool
    ensures { result ≡ is_journaled_line geometry.now line }
{
    let inodes = u64::from(geometry.inodes);
    let names = u64::from(geometry.names);
    let first_inode = geometry.inode_line(0);
    let first_name = geometry.name_line(0);
    line == STATE_LINE
        || (first_inode <= line && line < first_inode + inodes)
        || (first_name <= line && line < first_name + names)
}

// Rule 11, record by record: the first that is committed and has no journaled target.
fn bad_target(pm: &Pm, geometry: &Geometry) -> Option<u32>
    requires device { 32768 ≤ length pm.now }
    requires home { AllHome pm.now }
    ensures { MatchOption result (Holds (below 11 128 (HasTarget geometry.now (words_of pm.now))))
        (FailsFirst (below 11 128 (HasTarget geometry.now (words_of pm.now)))) }
{
    for record in 0..committed(pm) {
        if !is_journaled(geometry, target_of(pm, record)) {
            return Some(record);
        }
    }
    None
}

// Rule 11, at 128: whether at most 128 records are committed, and the log base is in its range.
fn has_state(pm: &Pm) -> bool
    requires device { 32768 ≤ length pm.now }
    requires home { AllHome pm.now }
    requires whole { length pm.now % 512 ≡ 0 }
    ensures { IsTrue result ↔ HasState (words_of pm.now) }
{
    let base = view_word(pm, BASE_WORD);
    pm.read_word(COMMIT_WORD) <= 128 && 1 <= base && base <= 1 << 63
}

// Rules 2, 3 and 4: the geometry of a device with a superblock and a block 0 of it.
fn check_block_0(pm: &Pm) -> Result<Geometry, BadImage>
    requires device { 32768 ≤ length pm.now }
    requires home { AllHome pm.now }
    requires whole { length pm.now % 512 ≡ 0 }
    ensures geometry { IfOk result (λ g. g ≡ geometry_of (words_of pm.now)) }
    ensures magic { OnOk result (HasMagic (words_of pm.now)) }
    ensures version { OnOk result (HasVersion (words_of pm.now)) }
    ensures numbers { OnOk result (HasNumbers (8 * length pm.now) (words_of pm.now)) }
    ensures bad { IfErr result (IsFirstOf (block_0_rules (8 * length pm.now) (words_of pm.now))) }
{
    let geometry = read_head(pm)?;
    if pm.words() != 512 * u64::from(geometry.blocks)
        || !is_state_zero(pm)
        || !are_others_zero(pm)
    {
        return Err(BadImage { rule: 4, place: 0 });
    }
    Ok(geometry)
}

// Rule 11: the journal.
fn check_journal(pm: &Pm, geometry: &Geometry) -> Result<(), BadImage>
    requires device { 32768 ≤ length pm.now }
    requires home { AllHome pm.now }
    requires whole { length pm.now % 512 ≡ 0 }
    ensures ok { OnOk result (HoldAll (journal_rules geometry.now (words_of pm.now))) }
    ensures bad { IfErr result (IsFirstOf (journal_rules geometry.now (words_of pm.now))) }
{
    if let Some(record) = bad_target(pm, geometry) {
        return Err(BadImage {
            rule: 11,
            place: u64::from(record),
        });
    }
    if !has_state(pm) {
        return Err(BadImage {
            rule: 11,
            place: 128,
        });
    }
    Ok(())
}

/// Rules 1 to 4 and 11, in their order: the geometry of the device, or the first of these rules
/// that its image breaks.
pub(crate) fn check_head(pm: &Pm) -> Result<Geometry, BadImage>
    requires home { AllHome pm.now }
    requires whole { length pm.now % 512 ≡ 0 }
    requires fits { 8 * length pm.now < 2 ^ 64 }
    ensures geometry { IfOk result (λ g. g ≡ geometry_of (words_of pm.now)) }
    ensures ok { OnOk result (HasHead (8 * length pm.now) (words_of pm.now)) }
    ensures bad { IfErr result (IsFirstOf (head_rules (8 * length pm.now) (words_of pm.now))) }
{
    let words = pm.words();
    if !has_whole_blocks(words) {
        return Err(BadImage {
            rule: 1,
            place: 8 * words,
        });
    }
    let geometry = check_block_0(pm)?;
    check_journal(pm, &geometry)?;
    Ok(geometry)
}
