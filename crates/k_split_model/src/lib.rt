//! What each change of K-Split makes of a volume, as definitions that read as what happened.
//!
//! K-Split's contracts cite these: `made`, `removed`, `renamed` and so on for names, `IsSized`,
//! `IsFilled`, `IsMoved` for maps. A change that the power cuts off leaves the old volume or the
//! new one (`IsOldOrNew`).
//!
//! - `changes`: K-Split in definitions: what its state is, what each change makes of a volume, and
//!   what a power loss leaves of one.
//! - `map_changes`: What each change of K-Split's maps makes of a volume, in definitions.
//!
//! Stands on `image_model` and `posix_tables`.
#![tactic(auto)]

mod changes;
mod map_changes;

pub use changes::a_small_volume_is_changed;
pub use map_changes::{
    Landing, Move, MoveRun, a_landing_of_one_run_is_a_move, maps_of_a_small_volume_change,
};
