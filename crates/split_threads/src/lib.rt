//! A run of scripts by real threads.
//!
//! The World lies under a turn (`ruled_turn`), with a pass for each thread and one for the set-up; its log's lines lie in a
//! log that threads fill at once (`oplog_tail`), with a seat for each. A worker begins and finishes its calls inside the
//! turn; it fills its jobs and appends their entries outside it, at once with all others, and takes no memory there. A round
//! ends as all workers are joined; then turn and log are closed, and a Checkpoint, the unmount or a crash comes.
//!
//! The layer above may rely on this, for every schedule of the threads (`run`, `IsEndedByThreads`): the history is legal and
//! follows the scripts; a run without a bound of steps is whole, with the tree of its history; with one the device keeps the
//! promise for what returned and what did not, and a loss comes only where so many calls can take so many steps. That a
//! thread gets on, or that two run at once, is not promised.
//!
//! Stands on `split_world`, `ruled_turn` and `oplog_tail`, and on the laws of `thread_laws`.
#![tactic(auto)]

mod closes;
mod dealing;
mod gates;
mod opening;
mod runs;
mod set_up;
mod starting;
mod turning;
mod turns;
mod working;

pub use dealing::power_for;
pub use gates::{Gate, OpenGate};
pub use runs::run;
pub use thread_laws::Worked;
pub use turns::{Calls, Hand, HandPass, Held, WorldTurn};
pub use working::{Own, Shared, work};
