//! A device is mounted, whatever entries of its log are live.
//!
//! `mount` checks the image of a device, recovers its journal and carries out the live entries of its log;
//! staging files give up their blocks, and maps what they have past the ends of files; files go to which no
//! name leads, and the log's next lap begins. The layer above may rely on this (`IsMountAnswer`): `Bad` comes
//! exactly where the image breaks a rule. Done (`IsMounted`), the content is that of the image; the device is
//! a checked image again, all words single; no line of the log is an entry of its lap, nothing is staged,
//! each file has a name, no map goes past the end of its file, and no file has applied an order above 2^62.

mod faults;
mod mounts;
mod resetting;
mod trimming;
mod unstaging;

pub use crate::replays::a_remount_shows_the_same;
pub use faults::MountFault;
pub use mounts::mount;
pub use staging_files::{KFault, KSplit};
