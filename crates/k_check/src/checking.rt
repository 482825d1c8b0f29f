//! The check of a whole image.
ghost use Rattle.std.specs.Prelude.{◌≡◌, ◌↔◌, ◌*◌, ◌%◌, ◌<◌, ◌≤◌, ◌^◌, length, true, All, IsTrue, IfOk, OnOk};
ghost use Rattle.oplog_entry.specs.layout_model.Entries.{is_draft};
ghost use Rattle.check_image.specs.image_model.Broken.{Breaks};
ghost use Rattle.check_image.specs.image_model.Live.{live_entries};
ghost use Rattle.check_image.specs.image_model.Rules.{geometry_of, CanRecover, IsChecked};
ghost use Rattle.check_image.specs.image_model.Volume.{Volume};
ghost use Rattle.k_check.specs.Rooms.{HasRoom};
ghost use Rattle.k_check.specs.Slots.{slots_at, AreDrafts};
ghost use Rattle.oplog_entry.specs.pm_model.Cells.{AllHome};
ghost use Rattle.oplog_entry.specs.pm_model.Images.{words_of};
ghost use Rattle.oplog_entry.specs.pm_model.Words.{Words};
ghost use Rattle.check_image.specs.Answers.{IfBad};
ghost use Rattle.check_image.specs.Readings.{AreTables};

use crate::entries::{live_entries, read_slots};
use crate::room::held_after;
use crate::rules::{are_good_slots, are_staged, later_entry};
use check_image::{BadImage, CheckFault, Geometry, Tables, count_unused, read_volume};
use oplog_entry::Draft;
use pm_lines::Pm;
use std::alloc::{AllocError, Global};

// Rule 12, the parts that speak of room: whether what the files hold after recovery leaves the
// reserve, and the blocks that nothing names are enough.
fn has_room(tables: &Tables, live: &[Draft]) -> bool
    requires inodes { length tables.now.inodes.items ≤ 1024 }
    requires named { length tables.now.named.items ≡ length tables.now.inodes.items }
    requires uses { length tables.now.uses.items < 2 ^ 32 }
    ensures { (v : Volume) → AreTables v tables.now → (IsTrue result ↔ HasRoom v live.now) }
{
    let reserve = u64::from(tables.geometry.reserve());
    let held = held_after(&tables.inodes, &tables.named, live);
    let room = u64::from(count_unused(&tables.uses)) + 3;
    if held + reserve > u64::from(tables.geometry.data_blocks()) || reserve > room {
        return false;
    }
    live.len() as u64 <= room - reserve
}

// Rule 12, for the entries in the slots and the live ones of them.
fn can_recover(tables: &Tables, slots: &[Option<Draft>], live: &[Draft]) -> bool
    requires inodes { length tables.now.inodes.items ≤ 1024 }
    requires named { length tables.now.named.items ≡ length tables.now.inodes.items }
    requires uses { length tables.now.uses.items < 2 ^ 32 }
    requires drafts { AreDrafts slots.now }
    requires live { All (λ d. is_draft d ≡ true) live.now }
    ensures { (v : Volume) (j : Words) → AreTables v tables.now
        → slots.now ≡ slots_at v.geometry v.base j → live.now ≡ live_entries v j
        → (IsTrue result ↔ CanRecover v j) }
{
    if !are_staged(&tables.maps.maps, live) || !are_good_slots(&tables.inodes, slots) {
        return false;
    }
    has_room(tables, live)
}

/// The geometry of the device, where its image keeps all rules; else the first rule that the image
/// breaks, in the order 1 2 3 4 11 5 6 7 8 9 10 12 13, with the lowest place at which it breaks it.
/// A pending journal is read through: lines count as its committed records have them. Nothing is
/// written. Out of memory is the only other answer.
///
/// The device has whole blocks of 512 words, fewer bytes than an address can say, and nothing of it
/// is lent; of a word with two candidates the newer counts. The work goes by the lines of the image
/// and the blocks that its chains and maps name; by pairs of name lines, and of slots of the log; and
/// by the live entries for each named file.
pub fn check(alloc: Global, pm: &Pm) -> Result<Geometry, CheckFault>
    requires home { AllHome pm.now }
    requires whole { length pm.now % 512 ≡ 0 }
    requires fits { 8 * length pm.now < 2 ^ 64 }
    ensures ok { OnOk result (IsChecked (8 * length pm.now) (words_of pm.now)) }
    ensures geometry { IfOk result (λ g. g ≡ geometry_of (words_of pm.now)) }
    ensures bad { IfBad result (λ bad. Breaks (8 * length pm.now) (words_of pm.now) bad.rule bad.place) }
{
    let tables = match read_volume(alloc, pm)? {
        Ok(tables) => tables,
        Err(bad) => return Err(CheckFault::Bad(bad)),
    };
    let slots = read_slots(alloc, pm, &tables.geometry, tables.base)?;
    let live = live_entries(alloc, &tables.inodes, &slots)?;
    if !can_recover(&tables, &slots, &live) {
        return Err(CheckFault::Bad(BadImage { rule: 12, place: 0 }));
    }
    if let Some(slot) = later_entry(pm, &tables.geometry, tables.base) {
        return Err(CheckFault::Bad(BadImage {
            rule: 13,
            place: u64::from(slot),
        }));
    }
    Ok(tables.geometry)
}
