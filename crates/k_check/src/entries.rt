// The entries of the log, slot by slot, and those that recovery still has to carry out.
ghost use Rattle.std.specs.Prelude.{◌≡◌, ◌*◌, ◌+◌, ◌<◌, ◌≤◌, ◌^◌, ◌++◌, ℕ, length, slice_index_or, filter, IfOk, OnOk};
ghost use Rattle.std.specs.List.{filter_map};
ghost use Rattle.oplog_entry.specs.layout_model.Entries.{decode_entry};
ghost use Rattle.oplog_entry.specs.layout_model.Journal.{journaled};
ghost use Rattle.oplog_entry.specs.layout_model.Places.{log_line};
ghost use Rattle.check_image.specs.image_model.Live.{is_file, is_of_file, is_live};
ghost use Rattle.check_image.specs.image_model.Volume.{Volume, free_inode};
ghost use Rattle.k_check.specs.Slots.{slots_at, passing};
ghost use Rattle.oplog_entry.specs.pm_model.Cells.{AllHome};
ghost use Rattle.oplog_entry.specs.pm_model.Images.{words_of};
ghost use Rattle.oplog_entry.specs.pm_model.Words.{line_bytes};

use check_image::{Geometry, Inode, Kind, view_line};
use oplog_entry::{Draft, decode};
use pm_lines::Pm;
use std::alloc::{AllocError, Global};

// An inode that nothing is in.
const FREE: Inode = Inode {
    kind: Kind::Free,
    generation: 0,
    size: 0,
    applied: 0,
    root: 0,
    extents: 0,
};

// The inode of a number; past the last a free one.
pub(crate) fn inode_of(inodes: &[Inode], ino: u32) -> Inode
    ensures { result ≡ slice_index_or inodes.now ino free_inode }
{
    let ino = ino as usize;
    if ino < inodes.len() {
        inodes[ino]
    } else {
        FREE
    }
}

fn is_file(kind: Kind) -> bool
    ensures { result ≡ is_file kind }
{
    matches!(kind, Kind::File)
}

// Whether the entry is one of a file that is there.
pub(crate) fn is_of_file(inodes: &[Inode], draft: &Draft) -> bool
    ensures { (v : Volume) → v.inodes ≡ inodes.now → result ≡ is_of_file v draft.now }
{
    let inode = inode_of(inodes, draft.ino);
    is_file(inode.kind) && inode.generation == draft.generation
}

// Whether recovery still has to carry the entry out.
pub(crate) fn is_live(inodes: &[Inode], draft: &Draft) -> bool
    ensures { (v : Volume) → v.inodes ≡ inodes.now → result ≡ is_live v draft.now }
{
    is_of_file(inodes, draft)
        && inode_of(inodes, draft.ino).applied < draft.order
        && inode_of(inodes, draft.staging).generation == draft.staging_generation
}

// Puts the entry of a slot behind the others, if it is live.
fn push_live(live: &mut Vec<Draft>, inodes: &[Inode], slot: Option<Draft>) -> Result<(), AllocError>
    ensures { OnOk result ((v : Volume) → v.inodes ≡ inodes.now
        → live.new.items ≡ live.old.items ++ passing (is_live v) slot) }
{
    if let Some(draft) = slot {
        if is_live(inodes, &draft) {
            live.push(draft)?;
        }
    }
    Ok(())
}

// The bytes of a line of the log, as the journal makes it.
pub(crate) fn log_bytes(pm: &Pm, geometry: &Geometry, slot: u32) -> [u8; 64]
    requires size { length pm.now ≡ 512 * geometry.now.blocks }
    requires home { AllHome pm.now }
    requires in_image { slot < geometry.now.log }
    ensures { result ≡ line_bytes (journaled (words_of pm.now)) (log_line geometry.now slot) }
{
    prove!(geometry.blocks >= 64);
    view_line(pm, geometry.log_line(slot))
}

/// The entry that is valid in each slot of the log.
pub(crate) fn read_slots(
    alloc: Global,
    pm: &Pm,
    geometry: &Geometry,
    base: u64,
) -> Result<Vec<Option<Draft>>, AllocError>
    requires size { length pm.now ≡ 512 * geometry.now.blocks }
    requires home { AllHome pm.now }
    requires base { base ≤ 2 ^ 63 }
    ensures { IfOk result (λ slots.
        slots.items ≡ slots_at geometry.now base (journaled (words_of pm.now))) }
{
    let mut slots = Vec::with_capacity(alloc, geometry.log as usize)?;
    for slot in 0..geometry.log {
        slots.push(decode(&log_bytes(pm, geometry, slot), base + u64::from(slot)))?;
    }
    Ok(slots)
}

/// The entries that recovery still has to carry out, by rising slot.
pub(crate) fn live_entries(
    alloc: Global,
    inodes: &[Inode],
    slots: &[Option<Draft>],
) -> Result<Vec<Draft>, AllocError>
    ensures { IfOk result (λ live. (v : Volume) → v.inodes ≡ inodes.now
        → live.items ≡ filter (is_live v) (filter_map (λ o. o) slots.now)) }
{
    let mut live = Vec::new(alloc);
    for slot in slots {
        push_live(&mut live, inodes, *slot)?;
    }
    Ok(live)
}
