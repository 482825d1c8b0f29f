//! How the next call of a caller begins in a World whose power was not lost.
//!
//! `begin_next` looks, in this order, at the power, the script, the round and the jobs of others; a call that nothing
//! keeps waiting has all memory of its end taken first. A write begins as `begin_put` says; any other call has what is
//! staged of its file published first, where it wants that, and then runs. The layer above may rely on this: the call
//! returned, became a job, waits, or ended the round, the power went, the script has ended, or memory ran out, each with
//! the World that then stands (`IsBegun`); all is kept as long as the World is usable; and it took at most the steps of
//! that call (`most_of`).

mod begins;
mod runs;

pub use crate::turns::{Begun, Crashed, Ended, Finished, NoMemory, Parts, Ready, lose, ready_of};
pub use begins::begin_next;
