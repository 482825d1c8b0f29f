//! A change of names or nodes planned on the tables of a volume, and a plan landed as one transaction.
//!
//! A plan takes all its memory and puts lines into a `Batch`; landed, the device stands at the new
//! volume, and wherever the power goes at the old one or the new one. Landing takes no memory.
//!
//! - `landings`: Landing a plan: a change of the metadata as one transaction.
//! - `plans`: The tables of a volume in memory, and the changes of names and nodes planned on them.
//!
//! The pool has just the data blocks that nothing in the volume names, that are not set aside for the change
//! that is planned, and that do not wait for a commit, so no call loses a block.
//!
//! Stands on `pm_lines`, `extent_map`, `image_layout`, `k_inodes`, `k_names`, `map_chain`,
//! `k_journal`, `layout_model`, `posix_types`, `volume_change_laws`, `k_reading`, `k_tables` and
//! `k_split_model`.
#![tactic(auto)]

mod landings;
mod plans;

pub use landings::{
    Batch, Commit, Geometry, Kind, NewMap, Recovered, an_empty_plan_turns_nothing, clear_name,
    land, land_maps, plans_can_be_landed, put_base, put_inode, put_name, recover,
};
pub use plans::{
    Move, PlanFault, Tables, fresh_image, nodes_are_made_behind_the_staging_files, read_base,
    read_inodes, read_maps, read_names, tables_begin_with_what_is_read,
};
