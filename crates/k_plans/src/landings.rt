//! Landing a plan: a change of the metadata as one transaction.
//!
//! A change computes a plan: the lines that it sets, which are a `Batch`, and the maps that it puts
//! into free blocks (`NewMap`). All memory is taken while planning. The calls `put_inode`,
//! `put_name`, `clear_name` and `put_base` plan one line each and say what volume the plan turns
//! the old one into (`Turns`); `Batch::clear` gives a plan up.
//!
//! `land` and `land_maps` carry a plan out, all or nothing for every power, and take no memory. The
//! layer above may rely on this: done, the device stands at the new volume; wherever the power
//! goes, each image reads as the old volume or as the new one, and else is an image before, but for
//! the journal, the plan's lines and the new blocks, which no inode of the old volume may have.

mod landings;
mod laws;
mod maps;
mod plans;

pub use k_inodes::Kind;
pub use k_journal::journal::recover;
pub use k_journal::{Batch, Commit, Geometry, Recovered};
pub use landings::land;
pub use laws::{an_empty_plan_turns_nothing, plans_can_be_landed};
pub use maps::{NewMap, land_maps};
pub use plans::{clear_name, put_base, put_inode, put_name};
