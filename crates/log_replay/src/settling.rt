//! What ends a mount: nameless files go, and the log's next lap begins.
//!
//! `settle` is for a device of whose log no entry is live. The layer above may rely on this (`IsSettled`): K-Split
//! is in order with all words single; each file has a name, and nothing else is gone (`Sheds`); no line of the log
//! is an entry; the device is a checked image, with the content that it had. Wherever the power goes, each honest
//! image is checked and has that content (`StaysShown`). Its two parts, `drop_nameless` and `begin_lap`, stand
//! alone too. All go with the power that they are given.

ghost use Rattle.log_replay.specs.Laws.{RecoversChecked, ShowsTheSame, TreesAreOfContent};

mod laps;
mod nameless;
mod settling;

pub use laps::begin_lap;
pub use nameless::drop_nameless;
pub use settling::settle;

/// A recovered device is checked where the image was; nameless files are in no tree; and a tree of a content is
/// one as the World speaks of it.
pub fn a_remount_shows_the_same()
    ensures recovered { RecoversChecked }
    ensures nameless { ShowsTheSame }
    ensures trees { TreesAreOfContent }
{}

pub use k_split::{Commit, KFault, KSplit, Move};
