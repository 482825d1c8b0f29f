//! What recovery has to carry out of the log of a checked image.
ghost use Rattle.std.specs.Prelude.{◌≡◌, ◌*◌, ◌%◌, ◌<◌, ◌^◌, length, IfOk};
ghost use Rattle.oplog_entry.specs.layout_model.Journal.{journaled};
ghost use Rattle.check_image.specs.image_model.Live.{live_entries};
ghost use Rattle.check_image.specs.image_model.Rules.{geometry_of, IsChecked};
ghost use Rattle.check_image.specs.image_model.Volume.{volume};
ghost use Rattle.oplog_entry.specs.pm_model.Cells.{AllHome};
ghost use Rattle.oplog_entry.specs.pm_model.Images.{words_of};

use crate::entries::{live_entries, read_slots};
use check_image::read_volume;
use oplog_entry::Draft;
use pm_lines::Pm;
use std::alloc::{AllocError, Global};

/// The entries of the log of a checked image that recovery has to carry out, by rising slot: the live
/// ones. A pending journal is read through; nothing is written. Out of memory is the only error.
pub fn live_log(alloc: Global, pm: &Pm) -> Result<Vec<Draft>, AllocError>
    requires home { AllHome pm.now }
    requires whole { length pm.now % 512 ≡ 0 }
    requires fits { 8 * length pm.now < 2 ^ 64 }
    requires checked { IsChecked (8 * length pm.now) (words_of pm.now) }
    ensures { IfOk result (λ live. let f = words_of pm.now in
        live.items ≡ live_entries (volume (geometry_of f) (journaled f)) (journaled f)) }
{
    match read_volume(alloc, pm)? {
        Ok(tables) => {
            let slots = read_slots(alloc, pm, &tables.geometry, tables.base)?;
            let live = live_entries(alloc, &tables.inodes, &slots)?;
            Ok(live)
        }
        Err(_) => unreachable!(),
    }
}
