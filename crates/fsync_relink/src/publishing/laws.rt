//! What the overlay shows beside the log.
ghost use Rattle.fsync_relink.specs.Logged.{ShowsLogged};
ghost use Rattle.fsync_relink.specs.Others.{LeavesEntries, LeavesOthers};

use file_overlay::{no_run_has_a_block_that_is_not_found, the_last_run_has_the_greatest_order};

/// Where the log holds the runs of an overlay, the overlay gives each file block the disk block that
/// it has in the content: of the runs laid there the last one is the entry of greatest order.
pub fn overlays_show_what_the_log_holds()
    ensures { ShowsLogged }
{
    the_last_run_has_the_greatest_order();
    no_run_has_a_block_that_is_not_found();
}

/// Once a file is published, other files may be published as before, and free blocks are left for their
/// runs. Where the log holds the runs of the file, just the entries of other files are live then, and
/// the same files are shown.
pub fn a_publishing_leaves_others()
    ensures others { LeavesOthers }
    ensures entries { LeavesEntries }
{}
