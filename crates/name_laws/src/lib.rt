//! Laws of names: tables of name lines after a change, and the rows of the calls over them.
//!
//! The names of a sane volume are a tree, and stay one when a line is taken, freed or moved as the
//! calls do; look-ups, walks and refusals over the lines are those over the space of the volume.
//!
//! - `name_lines`: Facts of tables of names: what they say after one line was taken, freed or
//!   moved.
//! - `spaces`: The space of a volume: what the rows of the calls on names say of its tables.
//!
//! Stands on `volume_laws` and `k_split_model`.
#![tactic(auto)]

mod name_lines;
mod spaces;

pub use name_lines::{
    lines_are_freed, lines_are_taken, other_lines_stay, paths_lead_on, sane_names_are_trees,
};
pub use spaces::{calls_are_allowed, calls_are_refused, entries_are_rows, trees_have_one_path};
