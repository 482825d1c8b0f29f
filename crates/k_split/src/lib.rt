//! K-Split: the metadata of a file system on a persistent memory, each change one transaction.
//!
//! `KSplit` has the device, the tables of its volume and a batch of lines. A change computes a plan
//! on the tables, taking all its memory, and one call lands it (`k_plans`). Contracts see a `View`:
//! the volume, the volume that was committed last, the cells, and whether the power went.
//!
//! The layer above may rely on this: while the power is on the device stands at the volume, which
//! keeps the rules (`IsInOrder`). A change is refused exactly where the rows of the calls say, and
//! then nothing changes; it is done, and the new volume is what its definition says; or the power
//! went, and each image reads as the old volume or as the new one and else is an image before
//! (`IsAnswer`). A K-Split that lost its power is lost: its tables mean nothing more, it answers
//! `PowerLost`, and its device can be taken back.
//!
//! Handed no power, a change answers PowerLost at once, and K-Split is lost. `directory_of` is apart, so
//! that ENOENT comes before EMFILE and EMFILE before ENOSPC. `fill_holes` does nothing without holes, not
//! even a move of the chain. `restart_log` zeroes the lines durably, then sets the base by one transaction.
//!
//! Where changes gather (`batched`) each joins an open batch: the device stands at the volume that was committed last
//! until `commit`. A commit comes within a change exactly where its lines do not fit beside those of the batch, or where a cut
//! or a move wants blocks that wait (`IsGatherAnswer`); a block that came free in the batch is used by nothing before. Bytes in
//! place, loans and the log leave the batch as it is.
//!
//! Stands on `k_group_commit` (changes that gather), `k_plans` (changes of names), `k_map_plans` (of maps, and of what is applied), `block_io`, `k_reading`
//! and `k_tables`.
#![tactic(auto)]

mod bytes;
mod changes;
mod dropping;
mod faults;
mod filling;
mod laps;
mod laws;
mod lending;
mod logs;
mod looks;
mod making;
mod mapping;
mod opening;
mod relinking;
mod removing;
mod renaming;
mod resets;
mod staging;
mod state;
mod trees;

pub use block_io::{Move, put_lines};
pub use faults::KFault;
pub use k_map_plans::{Commit, Geometry, Kind, Recovered, recover};
pub use k_tables::{
    Call, Flags, Handle, Mode, Outcome, Path, Reply, Shape, Tree, TreeEntry, TreeNode, Who,
};
pub use laws::images_have_the_old_or_the_new_content;
pub use opening::mkfs;
pub use state::KSplit;
