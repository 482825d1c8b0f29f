//! Laws of changes: each change of names, nodes and maps keeps the rules of a volume.
//!
//! What a call's rows let through is what its change asks for (`MayMake` and so on); all but what
//! the change names stays; and a change that writes a map finds its blocks, which the reserve has.
//!
//! - `name_changes`: The changes of names and nodes keep the rules of a volume.
//! - `map_changes`: Facts of the changes of maps: what they keep, which blocks come free, and how
//!   many they want.
//!
//! Stands on `name_laws` and `k_split_model`.
#![tactic(auto)]

mod map_changes;
mod name_changes;

pub use map_changes::{
    blocks_of_maps_are_counted, changes_find_their_blocks, switches_keep_the_rules,
};
pub use name_changes::{calls_change, maps_change, names_change, others_stay};
