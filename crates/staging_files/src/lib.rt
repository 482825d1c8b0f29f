//! Staging: which blocks of the four staging files a write may have.
//!
//! A write stages whole blocks, a run of them one after the other in a staging file. A `Staging` hands
//! runs out: the lowest blocks that it keeps as free (the first way); else K-Split gives the lowest
//! empty staging file blocks, of which the run is the first (the second way). Contracts see the runs
//! that are out and how many blocks each staging file was given (`Staged`).
//!
//! The layer above may rely on this: runs that are out share no block (`IsStaged`); a run goes by the
//! first way that can be gone, and `NoRoom` comes exactly where none can (`IsReserveAnswer`); with
//! `owed` runs out at least `owed + reserve - 2` blocks stay free after one more; what a staging keeps
//! agrees with K-Split (`Agrees`) and goes on to; `give_up_all` leaves no staged block. No content
//! changes: each step is one of K-Split's own answers.
//!
//! A block is free where it was given and no run that is out has it. After a failed `give_up_all` a staging
//! is only to be dropped.
//!
//! Stands on `k_split`.
#![tactic(auto)]

mod giving;
mod looks;
mod reserving;
mod runs;
mod staging;

pub use k_split::{
    Commit, Geometry, KFault, KSplit, images_have_the_old_or_the_new_content, put_lines,
};
pub use runs::{StageFault, StageRun};
pub use staging::Staging;
