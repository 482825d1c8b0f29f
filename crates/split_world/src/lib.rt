//! The World: a file system with its scripts and the history of their calls since it was mounted, with logged
//! writes out while others run.
//!
//! A round begins with the log's lines handed out (`begin_round`). A call either returns at its beginning or, if
//! it is logged, becomes a job: its blocks are lent, it is filled outside (`Job::fill`), its entry is written into
//! a line that nobody else has, and then it finishes. A round ends where the lines or the staging are used up; a
//! checkpoint publishes what is staged and begins the next lap. The layer above may rely on this: the history is
//! legal and follows the scripts, each call answers what `step` answers (`IsBegun`, `IsFinished`); while the power
//! is on all stands together in the state of the history (`IsGoing`); once it went, whatever is put back of lines
//! and blocks leaves an image that the mode permits (`IsLost`), and a crash leaves a device that keeps the promise
//! (`IsLeft`), without the calls of jobs that cannot have acted too (`KeepsActed`). In strict mode, or sync mode.
//!
//! Stands on `world_begins` and `world_rounds`, which do the parts of its calls over all that it keeps
//! (`world_parts`), and on `round_laws`: it begins on a device that `log_replay` mounts.
#![tactic(auto)]

mod calls;
mod laws;
mod rounds;
mod starting;
mod world;

pub use world::World;
pub use world_begins::{Begun, Crashed, Ended, Finished, Ready};
pub use world_rounds::{MountFault, a_remount_shows_the_same, mount};
