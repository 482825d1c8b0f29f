//! The journal: changes of several lines of a device that a power loss leaves whole or not at all.
//!
//! A `Batch` holds up to 128 lines with their new content. `journal::commit` makes the batch's
//! records durable in the journal, then the commit word, then the lines themselves, and then
//! empties the journal. So at every moment the device's journaled view, the image that a recovery
//! would leave, has all of the old lines or all of the new ones. `journal::recover` leaves that
//! view in place, and may lose its power at any moment too.
//!
//! The layer above may rely on both calls for every power, whatever words are put back where words
//! of the device are lent. Neither takes memory: `Batch::new` makes all the room. A batch may be
//! laid over another (`lay`), where there is room for the lines that are new (`has_room_for`): so
//! changes that are planned one by one gather in one batch.
//!
//! Soundness after a call is an implication from the image before, since with the power off nothing is
//! known of the device.
//!
//! It stands on `pm_lines` (the device), `layout_model` (places and the journaled view) and
//! `image_layout` (the geometry).
#![tactic(auto)]

mod batches;
mod commits;
mod outcomes;
mod phases;
mod records;
mod recoveries;

/// The two calls of the journal.
pub mod journal;

pub use batches::{Batch, BatchFull, Record};
pub use image_layout::{Geometry, SuperFault, read_superblock};
pub use outcomes::{Commit, Recovered};
