//! Changes of maps planned on the tables: sizes, holes, staging files, relinks, and orders that count anew.
//!
//! A plan changes nothing before it has all memory, and comes with the map that is written before
//! its lines are landed; where blocks or memory run out all is as before.
//!
//! - `map_plans`: The changes of maps, planned on the tables.
//! - `log_plans`: The plan by which the entries that a file has applied count anew.
//!
//! Stands on `block_counts`, `layout_model`, `extent_map`, `k_relink`, `posix_types`, `k_plans`,
//! `k_split_model` and `thiserror`.
#![tactic(auto)]

mod log_plans;
mod map_plans;

pub use log_plans::plan_reset;
pub use map_plans::{
    Batch, Commit, Geometry, Kind, MapFault, NewMap, PlanFault, Recovered, Tables, fresh_image,
    land, land_maps, may_fill, plan_fill, plan_give_up, plan_landing, plan_move, plan_preallocate,
    plan_size, read_base, read_inodes, read_maps, read_names, recover,
};
