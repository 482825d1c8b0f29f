//! The World's rules: when a volume with live log entries stands for a state of the calls, what a logged
//! write in flight is, and when a world is valid.
//!
//! Between two events the World has a volume, the claims of the lap (pairs of a slot and an entry), the
//! jobs (logged writes that have begun and not returned) and a state of the calls, the run of the history.
//! `Stands` joins volume and state by numbers, the node of each inode; `JobStands` says what a job will
//! leave; `Valid` puts both together. `ClaimsStand` says what holds of all claims of the lap, `IsShown` what
//! an image shows of claims and jobs, and `LeftBy` what a power loss may then leave. Nothing here speaks of
//! cells or of memory: the World's code meets these words in its invariant.
//!
//! Definitions, and a worked world that is valid.

ghost use Rattle.world_model.specs.RulesLaws.{HasValidWorld};

/// A world with a live claim and a write in flight is valid.
pub fn a_world_is_valid()
    ensures { HasValidWorld }
{}
