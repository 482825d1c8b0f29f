//! Laws of one step: each call on names, and each change of K-Split that it takes, keeps the World valid.
//!
//! One law a call, each with any writes in flight: where K-Split makes of the volume what the call
//! asks for, the new volume stands for the state after the call's step; refusals are those of the
//! state's own space.
//!
//! - `spaces`: The space of a volume that stands for a state: calls on names are refused by it as
//!   by the state's own.
//! - `steps`: One step keeps the World valid, whatever writes are in flight.
//! - `names`: Calls on names keep the World valid, whatever writes are in flight.
//!
//! Stands on `world_model`, `commute_laws` and `volume_change_laws`.
#![tactic(auto)]

mod names;
mod spaces;
mod steps;

pub use names::{names_go, names_move, nodes_are_made, other_calls_stay};
pub use spaces::{as_much_is_left, paths_lead_to_the_same, replies_are_the_same};
pub use steps::{dead_files_stay_dead, names_agree_after_a_change, one_step_keeps_the_world};
