//! Laws of a run: what its history adds up to, how it goes on event by event, and the machine over events beside it.
//!
//! Of a history, the layer above may rely on this: at most so many calls changed the tree as steps were given
//! (`KeepsGiven`), and a tree that some of the unfinished calls permit is permitted by all of them (`PermitsAsMuch`).
//! Its lemmas say what one call more adds, and that a round's log holds the claims.
//!
//! Of a run of any number of callers: between two events nothing is out of a World but the log of its round and the
//! logged calls that have not finished, each as far as it came (`Between`). Each event leads from there to such a
//! moment again, with less left to do (`GoesOn`), or to a power loss (`LosesPower`); it is paid for, and so is each
//! unfinished call that acted (`PaysForActed`); and at any such moment a crash may come (`CanCrash`).
//!
//! The machine over events knows the history, the logged calls that are out with their stages, the claims of the lap
//! and whether the round is over, and nothing of the medium. What stands in it is what stands in the World
//! (`IsCourse`): each event of the World is one of the machine, and the machine that it leads to stands beside the
//! World again (`GoesBeside`); a round that ends for want of space is no event, and the World says why (`Leads`). So
//! what a run leaves is scheduled (`IsWholeRun`, `IsLostRun`).
//!
//! - `courses`: How the machine over events goes on beside a World.
//! - `events`: The laws of a run, one an event.
//! - `held`: A logged call that is out of a World, as far as it came.
//! - `laws`: How many calls of a run changed the tree, and which of the unfinished ones acted.
//!
//! Stands on `round_log` and `world_view_laws`. Lemmas, and the type of a held call.
#![tactic(auto)]

mod courses;
mod events;
mod held;
mod laws;

pub use courses::{a_caller_goes_beside, a_round_goes_beside, some_callers_can_run};
pub use events::{a_call_begins, a_job_goes_on, a_round_goes_on, a_run_ends};
pub use held::{Held, Work};
pub use laws::{a_larger_list_permits_as_much, the_tree_stays_within_the_steps};
pub use round_log::RoundLog;
pub use world_view_laws::{Commit, Filled, FilledJob, Job, KSplit, NoMemory};
