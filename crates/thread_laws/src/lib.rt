//! Laws of runs by threads: a World that threads take one after the other, and the log that they fill at once.
//!
//! A thread knows of the World, while it does not have it, what its view says (`Hands`). While nobody has it World and views
//! stand together (`Stands`); a holder may leave what one call of its caller leaves (`Moves`). The layer above may rely on
//! this: a turn over a World may follow that rule (`a_turn_keeps_its_world`); and the lines of the log, closed, are those that
//! the World asks for at the end of its round, or at a crash (`a_closed_log_is_the_worlds`).
//!
//! - `closes`: From a log that threads filled, closed, to the lines that a World asks for.
//! - `ends`: What a closed round gives the World's end.
//! - `turns`: The rule of a turn over a World.
//! - `works`: What a worker of a round does, and that each answer of the World is a move that the turn allows it.
//!
//! Stands on `oplog_tail`, `round_laws`, `world_parts` and `world_view_laws`. But for two enums lemmas alone.
#![tactic(auto)]

mod closes;
mod ends;
mod turns;
mod works;

pub use closes::a_closed_log_is_the_worlds;
pub use ends::a_round_ends_as_it_may;
pub use round_laws::{Commit, FilledJob, Job};
pub use turns::a_turn_keeps_its_world;
pub use works::{Next, Worked, a_worker_goes_on, each_answer_may_be_left};
pub use world_parts::{Filled, NoMemory};
