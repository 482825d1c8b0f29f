//! The machine: a run of scripts in a World, event by event.
//!
//! A call that is logged takes six events: it begins, its job is filled, a slot of the round's log is claimed, its
//! entry is stored and persisted there, and it finishes; every other call takes one. The set-up's events come first,
//! and then those of the threads in an order. Where a claim finds no slot left, or a call too few blocks, the round is
//! over: the jobs that are out go on, and once none is a Checkpoint ends it. The layer above may rely on this
//! (`IsRunEnded`): the run ends whole with all calls of the scripts, or by a power loss, with a device that keeps the
//! promise for what returned and what did not; so many events of the machine over events are scheduled in the order
//! (`IsScheduled`), fewer than a cut or exactly as many; its steps are afforded; and where the power was for N steps
//! at most N calls changed the tree, the unfinished ones included that acted (`KeepsStop`).
//!
//! Stands on `split_world` (the World), `schedule` (orders), `round_log` and `run_laws`.
#![tactic(auto)]

mod events;
mod outstanding;
mod picks;
mod rounds;
mod runs;
mod work;

pub use events::caller_event;
pub use outstanding::{Acted, Out, place_of};
pub use rounds::open_round;
pub use run_laws::{KSplit, NoMemory, RoundLog, Work, a_round_goes_beside};
pub use runs::{crash, run};
pub use schedule::Order;
pub use split_world::{
    Begun, Crashed, Ended, Finished, MountFault, Ready, World, a_remount_shows_the_same, mount,
};
