//! Publishing: the staged runs of a file go over to it, and the laws of the relinks by which they go.
//!
//! `publish` relinks the runs of a file's overlay by rising order, each whole, by one change of K-Split each; the length of
//! the file goes with the last one. Done, the file has the staged disk blocks and elsewhere what it had, and no run is laid; where
//! the power goes or memory runs out, some first runs are published and the overlay is as it was. Whatever happens, each
//! image has the content of the image before, where the log of that one holds the runs.
//!
//! - `relink_laws`: A move that carries out a log entry is a relink of the World and keeps the content in each image; of bytes
//!   in place each is the old one or the new one.
//! - `publishing`: The runs of a file, one behind the other.
//!
//! Stands on `log_laws`, `k_split`, `k_journal`, `file_overlay` and `pm_lines`.
#![tactic(auto)]

mod publishing;
mod relink_laws;

pub use publishing::{
    a_publishing_leaves_others, overlays_show_what_the_log_holds, publish, publish_runs,
};
pub use relink_laws::{
    bytes_in_place_are_old_or_new, moves_are_relinks, relinks_are_those_of_the_world,
    relinks_keep_the_content, staging_files_change_as_in_the_world,
};
