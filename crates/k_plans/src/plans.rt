//! The tables of a volume in memory, and the changes of names and nodes planned on them.
//!
//! `Tables` has the inodes, the names, the chains and the maps of a volume, and the blocks that are
//! free. Contracts see the volume, the blocks that are set aside for the change that is planned or came
//! free in it, and those that wait for a commit (`TablesView`); the volume keeps the rules (`IsWhole`),
//! and just those data blocks are free that nothing names, that are not set aside and do not wait.
//!
//! `make`, `rmdir`, `unlink`, `rename` and `drop_node` look up, take all memory, change the tables
//! and put the lines of the change into an empty `Batch`. The layer above may rely on this: the
//! answer is one clause by cases; a refusal comes just where the rows of the call say, and leaves
//! tables and batch; else the volume is changed by the definition of `k_split_model`, and the batch turns
//! the old volume into the new one (`IsPlan`), so that landing it is all that is left. Changes of
//! maps are planned above, of two steps: `set_aside` and `switch`. A plan begins with nothing set aside,
//! and leaves just those blocks set aside that came free in it. Then `release` makes them free, where the
//! plan is landed at once; or `hold` lets them wait, where changes gather, until `settle` makes all that
//! wait free after the commit.

mod dropping;
mod faults;
mod giving;
mod holding;
mod log_base;
mod making;
mod removing;
mod renaming;
mod switching;
mod tables;

pub use crate::landings::{
    Batch, Commit, Geometry, Kind, NewMap, Recovered, land, land_maps, recover,
};
pub use faults::PlanFault;
pub use k_reading::{fresh_image, read_base, read_inodes, read_maps, read_names};
pub use k_split_model::Move;
pub use tables::{Tables, nodes_are_made_behind_the_staging_files, tables_begin_with_what_is_read};
