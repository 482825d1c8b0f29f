// Rules 12 and 13: the entries of the log.
ghost use Rattle.std.specs.Prelude.{◌≡◌, ◌↔◌, ◌*◌, ◌+◌, ◌<◌, ◌≤◌, ◌^◌, ℕ, [], length, slice_index_or, true, All, None, IsTrue, MatchOption};
ghost use Rattle.oplog_entry.specs.layout_model.Entries.{is_draft};
ghost use Rattle.oplog_entry.specs.layout_model.Journal.{journaled};
ghost use Rattle.check_image.specs.image_model.Broken.{Holds, FailsFirst};
ghost use Rattle.check_image.specs.image_model.Rules.{HasStagingBlocks};
ghost use Rattle.check_image.specs.image_model.Volume.{Volume};
ghost use Rattle.check_image.specs.extent_model.Extents.{disk_at};
ghost use Rattle.k_check.specs.Slots.{IsGoodPair, IsGoodSlot, IsGoodWithLater, AreGoodSlots, IsDraftOrNone, AreDrafts, IsNoLaterAt, later_rule};
ghost use Rattle.oplog_entry.specs.pm_model.Cells.{AllHome};
ghost use Rattle.oplog_entry.specs.pm_model.Images.{words_of};

use crate::entries::{is_live, is_of_file, log_bytes};
use check_image::{Geometry, Inode};
use extent_map::ExtentMap;
use image_layout::u64_at;
use oplog_entry::{Draft, decode};
use pm_lines::Pm;

// The disk block of a file block of an inode, by these maps.
fn disk_block(maps: &[ExtentMap], ino: u32, block: u32) -> Option<u32>
    ensures { result ≡ disk_at (slice_index_or maps.now ino []) block }
{
    let ino = ino as usize;
    if ino < maps.len() {
        maps[ino].lookup(block)
    } else {
        None
    }
}

// Whether the staging file has the blocks of the entry.
fn has_staging_blocks(maps: &[ExtentMap], draft: &Draft) -> bool
    requires { is_draft draft.now ≡ true }
    ensures { (v : Volume) → v.maps ≡ maps.now → (IsTrue result ↔ HasStagingBlocks v draft.now) }
{
    for k in 0..u32::from(draft.count) {
        if disk_block(maps, draft.staging, draft.staging_block + k).is_none() {
            return false;
        }
    }
    true
}

// Whether all of the entries have them.
pub(crate) fn are_staged(maps: &[ExtentMap], live: &[Draft]) -> bool
    requires { All (λ d. is_draft d ≡ true) live.now }
    ensures { (v : Volume) → v.maps ≡ maps.now
        → (IsTrue result ↔ All (HasStagingBlocks v) live.now) }
{
    for draft in live {
        if !has_staging_blocks(maps, draft) {
            return false;
        }
    }
    true
}

// Whether the two entries share no staging block, and are not of one file and one order.
fn is_good_pair(inodes: &[Inode], draft: &Draft, other: &Draft) -> bool
    requires first { is_draft draft.now ≡ true }
    requires second { is_draft other.now ≡ true }
    ensures { (v : Volume) → v.inodes ≡ inodes.now
        → (IsTrue result ↔ IsGoodPair v draft.now other.now) }
{
    if is_live(inodes, draft) && is_live(inodes, other) && draft.staging == other.staging {
        let end = draft.staging_block + u32::from(draft.count);
        let other_end = other.staging_block + u32::from(other.count);
        if end > other.staging_block && other_end > draft.staging_block {
            return false;
        }
    }
    if draft.ino == other.ino && draft.order == other.order {
        return !is_of_file(inodes, draft) || !is_of_file(inodes, other);
    }
    true
}

// Whether the entry in a slot, where there is one, is a good pair with the other.
fn is_good_slot(inodes: &[Inode], draft: &Draft, slot: &Option<Draft>) -> bool
    requires first { is_draft draft.now ≡ true }
    requires second { IsDraftOrNone slot.now }
    ensures { (v : Volume) → v.inodes ≡ inodes.now
        → (IsTrue result ↔ IsGoodSlot v draft.now slot.now) }
{
    match slot {
        Some(other) => is_good_pair(inodes, draft, other),
        None => true,
    }
}

// Whether the entry in a slot, where there is one, and each in a later slot are a good pair.
fn is_good_with_later(inodes: &[Inode], slots: &[Option<Draft>], place: usize) -> bool
    requires place { place < length slots.now }
    requires drafts { AreDrafts slots.now }
    ensures { (v : Volume) → v.inodes ≡ inodes.now → (IsTrue result
        ↔ IsGoodWithLater v slots.now place (slice_index_or slots.now place None)) }
{
    let Some(draft) = &slots[place] else {
        return true;
    };
    for later in place + 1..slots.len() {
        if !is_good_slot(inodes, draft, &slots[later]) {
            return false;
        }
    }
    true
}

// Whether each two entries in slots are a good pair.
pub(crate) fn are_good_slots(inodes: &[Inode], slots: &[Option<Draft>]) -> bool
    requires { AreDrafts slots.now }
    ensures { (v : Volume) → v.inodes ≡ inodes.now → (IsTrue result ↔ AreGoodSlots v slots.now) }
{
    for place in 0..slots.len() {
        if !is_good_with_later(inodes, slots, place) {
            return false;
        }
    }
    true
}

// Rule 13 at one slot.
fn is_no_later(pm: &Pm, geometry: &Geometry, base: u64, slot: u32) -> bool
    requires size { length pm.now ≡ 512 * geometry.now.blocks }
    requires home { AllHome pm.now }
    requires base { base ≤ 2 ^ 63 }
    requires in_image { slot < geometry.now.log }
    ensures { IsTrue result ↔ IsNoLaterAt geometry.now base (journaled (words_of pm.now)) slot }
{
    let line = log_bytes(pm, geometry, slot);
    let seq = u64_at(&line, 8);
    seq < base + u64::from(geometry.log) || decode(&line, seq).is_none()
}

/// Rule 13: the first slot that breaks it.
pub(crate) fn later_entry(pm: &Pm, geometry: &Geometry, base: u64) -> Option<u32>
    requires size { length pm.now ≡ 512 * geometry.now.blocks }
    requires home { AllHome pm.now }
    requires base { base ≤ 2 ^ 63 }
    ensures { (v : Volume) → v.geometry ≡ geometry.now → v.base ≡ base
        → MatchOption result (Holds (later_rule v (journaled (words_of pm.now))))
        (FailsFirst (later_rule v (journaled (words_of pm.now)))) }
{
    for slot in 0..geometry.log {
        if !is_no_later(pm, geometry, base, slot) {
            return Some(slot);
        }
    }
    None
}
