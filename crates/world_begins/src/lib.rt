//! How the next call of a caller begins in a World: its turn, publishing first, a write, or any other call.
//!
//! `begin_next` looks at the power, the script, the round and the jobs of others, in this order;
//! its answer, and the World that then stands, is `IsBegun` of `world_parts`.
//!
//! - `turns`: The turn of a call: what a World does for a call that nothing keeps waiting, before
//!   it acts, and how a write begins.
//! - `begins`: How the next call of a caller begins in a World whose power was not lost.
//! - `progress`: Laws of progress: what ends a round is settled, and rounds end.
//!
//! Stands on `pm_lines`, `posix_types`, `posix_tables`, `layout_model`, `write_plan`, `call_laws` and `world_parts`.
#![tactic(auto)]

mod begins;
mod laws;
mod progress;
mod turns;

pub use begins::begin_next;
pub use progress::{
    a_file_that_is_synced_is_published, rounds_get_further, the_end_of_a_round_is_settled,
    the_first_call_of_a_round_finds_room, the_first_call_of_a_round_goes_on,
};
pub use turns::{
    Begun, Crashed, Ended, Finished, JobOut, NoMemory, Over, Parts, Ready, Told, Truncated, add,
    begin_put, busy_on, call_at, calls_made, end_round, fsync, jobs_need_what_their_calls_do,
    lacks_room, lose, lose_call, lose_one, needs_now, publish_first, ready_of, run_call,
    truncate_file,
};
