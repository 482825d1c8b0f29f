//! Steps of K-Split beside a World with writes in flight: what stands together goes on to.
//!
//! Lemmas alone. The layer above may rely on this: where K-Split, the open files, the staging
//! files, what is kept of files and the jobs that are out stand together (`StandsAt`), a change of
//! K-Split that is a step of the World leaves them standing together in the next state, once the
//! line of the file that it made, cut or dropped says that nothing is staged (`StandsOn`,
//! `LeavesCleared`); and so does a call that changes tables and published lengths alone
//! (`StandsStill`).

ghost use Rattle.live_step_laws.specs.StepsLaws.{LeavesCleared, StandsOn, StandsStill};

/// A step of K-Split, and a call that takes none, leave the World standing.
pub fn a_step_leaves_the_world_standing()
    ensures on { StandsOn }
    ensures still { StandsStill }
    ensures cleared { LeavesCleared }
{}

pub use k_split_laws::{KFault, KSplit};
pub use live_model::{Collection, read_bytes};
