//! The images that a power loss leaves.
ghost use Rattle.std.specs.Prelude.{◌≡◌, ◌≢◌, ◌↔◌, ◌*◌, ◌+◌, ◌/◌, ◌<◌, ◌≤◌, ℕ, length, true, false, IsTrue, IfOk, OnOk};
ghost use Rattle.oplog_entry.specs.layout_model.Entries.{is_self_valid};
ghost use Rattle.oplog_entry.specs.layout_model.Places.{log_line};
ghost use Rattle.check_image.specs.image_model.Honest.{HasNewer, SomeHasTwo, EachHasTwo, IsTorn, IsHonest};
ghost use Rattle.k_check.specs.Crashes.{IsChance, IsCrashImage};
ghost use Rattle.pm_lines.specs.Choices.{chosen};
ghost use Rattle.oplog_entry.specs.pm_model.Cells.{AllHome, cell, oldest};
ghost use Rattle.oplog_entry.specs.pm_model.Images.{IsImageOf};
ghost use Rattle.oplog_entry.specs.pm_model.Words.{word_at, line_bytes};

use check_image::Geometry;
use image_layout::{put_u64, u64_at};
use oplog_entry::decode;
use pm_lines::{Choice, Pm};
use std::alloc::{AllocError, Global};

// The word at `index` of some bytes.
fn word_in(bytes: &[u8], index: usize) -> u64
    requires { 8 * index + 8 ≤ length bytes.now }
    ensures { result ≡ word_at bytes.now index }
{
    let at = 8 * index;
    u64::from_le_bytes([
        bytes[at],
        bytes[at + 1],
        bytes[at + 2],
        bytes[at + 3],
        bytes[at + 4],
        bytes[at + 5],
        bytes[at + 6],
        bytes[at + 7],
    ])
}

// The bytes of a line of an image.
fn line_in(bytes: &[u8], line: usize) -> [u8; 64]
    requires { 64 * line + 64 ≤ length bytes.now }
    ensures { result ≡ line_bytes (word_at bytes.now) line }
{
    let mut content = [0; 64];
    for word in 0..8 {
        put_u64(&mut content, 8 * word, word_in(bytes, 8 * line + word));
    }
    content
}

// Sets a line of an image as another image has it.
fn put_line(bytes: &mut [u8], other: &[u8], line: usize)
    requires line { 64 * line + 64 ≤ length bytes.old }
    requires same { length other.now ≡ length bytes.old }
    ensures words { (i : ℕ) → i / 8 ≡ line → word_at bytes.new i ≡ word_at other.now i }
    ensures others { (i : ℕ) → i / 8 ≢ line → word_at bytes.new i ≡ word_at bytes.old i }
{
    let at = 64 * line;
    bytes[at..at + 64].copy_from_slice(&other[at..at + 64]);
}

// Whether some word of the line has two candidates.
fn some_has_two(pm: &Pm, line: u64) -> bool
    requires in_device { line < length pm.now / 8 }
    requires home { AllHome pm.now }
    ensures { IsTrue result ↔ SomeHasTwo (cell pm.now) line }
{
    // It bounds the words' numbers.
    let _ = pm.words();
    for word in 0..8 {
        if !pm.single(8 * line + word) {
            return true;
        }
    }
    false
}

// Whether each word of the line has two candidates.
fn each_has_two(pm: &Pm, line: u64) -> bool
    requires in_device { line < length pm.now / 8 }
    requires home { AllHome pm.now }
    ensures { IsTrue result ↔ EachHasTwo (cell pm.now) line }
{
    // It bounds the words' numbers.
    let _ = pm.words();
    for word in 0..8 {
        if pm.single(8 * line + word) {
            return false;
        }
    }
    true
}

// Whether the line has the same words in two images.
fn is_same_line(bytes: &[u8], other: &[u8], line: usize) -> bool
    requires line { 64 * line + 64 ≤ length bytes.now }
    requires same { length other.now ≡ length bytes.now }
    ensures { IsTrue result ↔ ((j : ℕ) → j < 8
        → word_at bytes.now (8 * line + j) ≡ word_at other.now (8 * line + j)) }
{
    for word in 0..8 {
        if word_in(bytes, 8 * line + word) != word_in(other, 8 * line + word) {
            return false;
        }
    }
    true
}

// Whether the line has its newer candidates in an image.
fn is_newer(pm: &Pm, bytes: &[u8], line: usize) -> bool
    requires line { 64 * line + 64 ≤ length bytes.now }
    requires size { length bytes.now ≡ 8 * length pm.now }
    requires home { AllHome pm.now }
    ensures { IsTrue result ↔ HasNewer (cell pm.now) (word_at bytes.now) line }
{
    for word in 0..8 {
        if word_in(bytes, 8 * line + word) != pm.read_word((8 * line + word) as u64) {
            return false;
        }
    }
    true
}

// Whether the line is torn in an image. The other image has the oldest candidate of each word.
fn is_torn(pm: &Pm, bytes: &[u8], older: &[u8], line: usize) -> bool
    requires line { 64 * line + 64 ≤ length bytes.now }
    requires size { length bytes.now ≡ 8 * length pm.now }
    requires older_size { length older.now ≡ 8 * length pm.now }
    requires older { (i : ℕ) → word_at older.now i ≡ oldest (cell pm.now i) }
    requires home { AllHome pm.now }
    ensures { IsTrue result ↔ IsTorn (cell pm.now) (word_at bytes.now) line }
{
    if !some_has_two(pm, line as u64) || is_same_line(bytes, older, line) {
        return false;
    }
    !each_has_two(pm, line as u64) || !is_newer(pm, bytes, line)
}

// Whether the bytes are an entry for the sequence number that they hold.
fn is_self_valid(content: &[u8; 64]) -> bool
    ensures { result ≡ is_self_valid content.now }
{
    decode(content, u64_at(content, 8)).is_some()
}

// Whether the line would pass its check by chance in the image of the choice.
fn is_chance(pm: &Pm, choice: Choice, bytes: &[u8], older: &[u8], line: usize) -> bool
    requires line { 64 * line + 64 ≤ length bytes.now }
    requires size { length bytes.now ≡ 8 * length pm.now }
    requires older_size { length older.now ≡ 8 * length pm.now }
    requires chosen { (j : ℕ) → j < 8
        → word_at bytes.now (8 * line + j) ≡ chosen choice pm.now (8 * line + j) }
    requires older { (i : ℕ) → word_at older.now i ≡ oldest (cell pm.now i) }
    requires home { AllHome pm.now }
    ensures { IsTrue result ↔ IsChance choice pm.now line }
{
    is_self_valid(&line_in(bytes, line)) && is_torn(pm, bytes, older, line)
}

// Gives each log line that would pass its check by chance its older candidates.
fn settle_log(pm: &Pm, geometry: &Geometry, choice: Choice, bytes: &mut [u8], older: &[u8])
    requires device { length pm.now ≡ 512 * geometry.now.blocks }
    requires size { length bytes.old ≡ 8 * length pm.now }
    requires older_size { length older.now ≡ 8 * length pm.now }
    requires chosen { (i : ℕ) → word_at bytes.old i ≡ chosen choice pm.now i }
    requires older { (i : ℕ) → word_at older.now i ≡ oldest (cell pm.now i) }
    requires home { AllHome pm.now }
    ensures { IsCrashImage geometry.now choice pm.now geometry.now.log (word_at bytes.new) }
{
    for slot in 0..geometry.log {
        let line = geometry.log_line(slot) as usize;
        if is_chance(pm, choice, bytes, older, line) {
            put_line(bytes, older, line);
        }
    }
}

// Whether some word of the log has two candidates.
fn log_has_two(pm: &Pm, geometry: &Geometry) -> bool
    requires device { length pm.now ≡ 512 * geometry.now.blocks }
    requires home { AllHome pm.now }
    ensures { result ≡ false → (slot : ℕ) → slot < geometry.now.log
        → ¬ SomeHasTwo (cell pm.now) (log_line geometry.now slot) }
{
    let slots = geometry.log;
    for slot in 0..slots {
        if some_has_two(pm, geometry.log_line(slot)) {
            return true;
        }
    }
    false
}

// Gives each log line that would pass its check by chance its older candidates. Where no word of the log
// has two candidates it takes no memory.
fn settle(
    alloc: Global,
    pm: &Pm,
    geometry: &Geometry,
    choice: Choice,
    bytes: &mut [u8],
) -> Result<(), AllocError>
    requires device { length pm.now ≡ 512 * geometry.now.blocks }
    requires size { length bytes.old ≡ 8 * length pm.now }
    requires chosen { (i : ℕ) → word_at bytes.old i ≡ chosen choice pm.now i }
    requires home { AllHome pm.now }
    ensures { OnOk result (IsCrashImage geometry.now choice pm.now geometry.now.log (word_at bytes.new)) }
{
    if !log_has_two(pm, geometry) {
        return Ok(());
    }
    let older = pm.choose(alloc, Choice::Oldest)?;
    settle_log(pm, geometry, choice, bytes, &older);
    Ok(())
}

/// The bytes of the image that a power loss leaves by the choice, in which no log line passes its
/// check by chance: a line that the choice tears, and that is an entry for the sequence number that
/// it holds, has its older candidates. So the image is honest.
///
/// No word of the device is lent. It takes memory for the image, and for a second one where a word of the
/// log has two candidates.
pub fn crash_image(
    alloc: Global,
    pm: &Pm,
    geometry: &Geometry,
    choice: Choice,
) -> Result<Vec<u8>, AllocError>
    requires home { AllHome pm.now }
    requires device { length pm.now ≡ 512 * geometry.now.blocks }
    ensures image { IfOk result (λ bytes. IsImageOf pm.now bytes.items) }
    ensures honest { IfOk result (λ bytes. IsHonest geometry.now (cell pm.now) (word_at bytes.items)) }
    ensures settled { IfOk result (λ bytes.
        IsCrashImage geometry.now choice pm.now geometry.now.log (word_at bytes.items)) }
{
    let mut bytes = pm.choose(alloc, choice)?;
    settle(alloc, pm, geometry, choice, &mut bytes)?;
    Ok(bytes)
}
