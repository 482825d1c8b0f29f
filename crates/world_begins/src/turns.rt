//! The turn of a call: what a World does for a call that nothing keeps waiting, before it acts, and how a write begins.
//!
//! At its turn (`IsTurn`) all is kept, and there is room for one job more. The layer above may rely on this: the blocks
//! that the jobs that are out need are counted (`needs_now`), so that no call takes them; what is staged of the file of
//! an `fsync`, a `truncate` or an `open` that cuts is published first (`publish_first`, `IsPublishedFirst`), after which
//! the call is at its turn still; a write returns, becomes a job, ends the round or loses its power (`begin_put`,
//! `IsBegun`). A call that loses its power is kept as the unfinished one (`lose_call`), and one that finds too little
//! space ends the round (`end_round`); the lemmas of `Turning` say what is seen and kept after each.

mod publishing;
mod puts;
mod turns;

pub use call_laws::{Truncated, jobs_need_what_their_calls_do, lacks_room, truncate_file};
pub use publishing::publish_first;
pub use puts::{Put, begin_put, put_of};
pub use turns::{end_round, lose_call, needs_now};
pub use world_parts::{
    Begun, Crashed, Ended, Finished, JobOut, NoMemory, Over, Parts, Ready, Told, add, busy_on,
    call_at, calls_made, fsync, lose, lose_one, ready_of, run_call,
};
