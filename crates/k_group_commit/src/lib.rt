//! Changes that gather: the lines of one plan after another, with the new maps that they need, and their commit.
//!
//! A device stands at one volume while the tables are ahead of it: the lines of a group turn the one into the other
//! (`AreGathered`). The new maps of the changes stand in their blocks already, which are free in both volumes, so that no
//! image has another content for them; and a block that came free in a change waits, so that nothing uses it before the
//! commit (`IsOpen`).
//!
//! `gather` lets a planned change join. The layer above may rely on this: where its lines do not fit beside those of the
//! group, 128 at most, the group is committed before and what waited is free; no other commit comes. Wherever the power goes,
//! each image reads as the volume of the last commit, or as that of the group at a commit within the call (`IsJoined`).
//! `commit_group` commits the group. Each plan of the tables is one that may join (`IsJoining`): its laws are in `specs/`.
//!
//! Stands on `k_plans` (tables and plans), `map_chain` (the write of a map), `k_journal` and `pm_lines`.
#![tactic(auto)]

mod groups;
mod standing;

pub use groups::{commit_group, gather};
pub use standing::standing_block;
