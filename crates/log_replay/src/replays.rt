//! The log after a power loss: its live entries are carried out, so that nothing that returned is lost.
//!
//! `in_order` sorts the live entries of a log, and `replay` carries them out by rising order: each is one
//! relink of K-Split, with the file's length and the order in the same transaction. The layer above may
//! rely on this (`IsReplayed`): then no entry is live, and each file has in its own line and map what it
//! had by the entries; and wherever the power goes, each image has the content of the first
//! (`ShowsTheSame`), so that a recovery that is cut off is begun again from the start.
//!
//! Which entries are live is said by `image_model` over all slots of the log; `k_check::live_log` reads them.

mod ordering;
mod replays;

pub use crate::settling::{a_remount_shows_the_same, settle};
pub use ordering::in_order;
pub use replays::replay;
