//! The changes of maps, planned on the tables.
//!
//! A plan sets free blocks aside, lets an inode go over to its new map, and puts its line into an
//! empty `Batch`. It changes no map before it has all memory. It begins with nothing set aside, and just
//! the blocks that came free in it are set aside at its end: `release` makes them free, `hold` lets them
//! wait. The layer above may rely on this: the answer is one clause by cases, over the definitions of
//! `k_split_model` (`IsSized`), and comes with the map that is to be written before the lines are landed
//! (`IsMapPlan`); where it wants more blocks than are free (`Few`), and for want of memory, tables and
//! batch are as before.

mod faults;
mod filling;
mod going;
mod landing;
mod linking;
mod lists;
mod moving;
mod sizing;
mod staging;
mod steps;

pub use faults::MapFault;
pub use filling::{may_fill, plan_fill};
pub(crate) use going::keep_map;
pub use k_plans::{
    Batch, Commit, Geometry, Kind, NewMap, PlanFault, Recovered, Tables, fresh_image, land,
    land_maps, read_base, read_inodes, read_maps, read_names, recover,
};
pub use landing::plan_landing;
pub use moving::plan_move;
pub use sizing::plan_size;
pub use staging::{plan_give_up, plan_preallocate};
