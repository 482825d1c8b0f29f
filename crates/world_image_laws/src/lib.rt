//! Laws of what images show: a mounted image begins a World, and every image of a running one keeps the promise.
//!
//! `KeepsPromise` says it of a device whose lines and blocks are at home, and `IsPutBack` of each
//! image with what is out put back as it was when the power went.
//!
//! - `beginning`: The beginning of a World: a mounted image stands for the state that begins with
//!   the tree of its content.
//! - `images`: What the images of a running world show, and the promise of its device.
//! - `lent`: The promise while log lines and data blocks are out.
//!
//! Stands on `world_step_laws` and `image_laws`.
#![tactic(auto)]

mod beginning;
mod images;
mod lent;

pub use beginning::{
    a_content_is_a_tree, a_mounted_volume_begins, an_inode_has_a_first_path, words_are_mounted,
};
pub use images::{
    a_change_is_cut_off, a_change_is_done, a_mounted_device_runs,
    a_node_without_a_name_is_in_no_tree, a_running_world_keeps_its_promise, the_room_is_kept,
};
pub use lent::{a_part_of_a_write_is_found, writes_in_flight_keep_the_promise};
