//! Laws of the live entries of a log, and of carrying them out one by one.
//!
//! The live entries of a checked image are sound; carrying out the next one of a file leaves the
//! others as sound, shows the same files, and keeps the rules of the log.
//!
//! - `live`: Facts of the live entries of the log.
//! - `replays`: Facts of replay: the live entries of a log in their order, and what stays right
//!   while they are carried out.
//!
//! Stands on `world_write_laws` and `world_image_laws`.
#![tactic(auto)]

mod live;
mod replays;

pub use live::{
    staging_files_change_no_live_entry, the_next_entry_is_carried_out,
    the_same_files_are_the_same_content,
};
pub use replays::{live_entries_come_in_order, the_head_stays_right, the_log_keeps_its_rules};
