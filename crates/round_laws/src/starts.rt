//! How a World begins on a device that is mounted.
//!
//! The tree that the device shows is the start of the history, and nothing is staged. The layer above may rely on this:
//! `table_of` gives the sizes of all files (`HasSizesOf`); a mounted device shows a tree (`ShowsTree`); and with this
//! tree, the shape and the table there is a World that goes on (`StartsGoing`), which begins on the image that was
//! mounted (`StartsMounted`): the log's lines at home, each entry in them one of an earlier lap, no block past the end of
//! a file, and the log's base low.
//!
//! Lemmas, but for the table.

ghost use Rattle.round_laws.specs.StartsLaws.{ShowsTree, StartsGoing, StartsMounted};

mod sizes;

pub use sizes::table_of;
use world_view_laws::files_end_after_changes_of_maps;

/// A mounted device: it has a tree, and a World begins on it.
pub fn a_world_begins()
    ensures tree { ShowsTree }
    ensures going { StartsGoing }
    ensures mounted { StartsMounted }
{
    files_end_after_changes_of_maps();
}

pub use log_replay::{MountFault, a_remount_shows_the_same, mount};
pub use world_view_laws::{
    Commit, FilledJob, Full, Job, KSplit, OpenFiles, Staging, calls_made, no_calls, script_length,
};
