//! The mount: an image is checked, its journal recovered, its live log entries carried out, and the next lap begun.
//!
//! `mount` keeps the content of the image: done, nothing is staged, no line is an entry, each file
//! has a name; cut off at any step, each honest image is checked and has that content, so that a
//! mount may be begun again.
//!
//! - `replays`: The log after a power loss: its live entries are carried out, so that nothing that
//!   returned is lost.
//! - `settling`: What ends a mount: nameless files go, and the log's next lap begins.
//! - `mounting`: A device is mounted, whatever entries of its log are live.
//!
//! `HasOldLines`: each line that is an entry is one of an earlier lap, since the first round hands its
//! lines out as they are.
//!
//! Stands on `layout_model`, `pm_lines`, `fsync_relink`, `world_image_laws`, `k_split`,
//! `block_counts`, `k_check` and `staging_files`.
#![tactic(auto)]

// The lowest inode of a file: those below are of the root and of the staging files.
pub(crate) const FIRST_FILE: u32 = 5;

mod mounting;
mod replays;
mod settling;
mod stops;

pub use mounting::{MountFault, mount};
pub use replays::{a_remount_shows_the_same, in_order, replay, settle};
pub use settling::{Commit, KFault, KSplit, Move, begin_lap, drop_nameless};
