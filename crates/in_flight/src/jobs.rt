//! The logged writes that are out, as a World keeps them, and the files that they keep busy.
//!
//! A job that is out is kept with its caller, its call, its entry and its blocks (`JobOut`), in the order of
//! beginning. The layer above may rely on this: `take_job` takes out the one of a caller, and leaves the others in
//! their order; `keeper` tells whether a call waits for a job of another caller, by what the calls say of the state
//! (`IsKept`): then it gives the file and that caller.

mod keeping;
mod pending;

pub use crate::counts::{
    Commit, Counters, Filled, FilledJob, Job, KSplit, call_at, calls_made, count_call, next_in,
    no_calls, script_length,
};
pub use keeping::{keeper, waits_for};
pub use open_files::OpenFiles;
pub use pending::{JobOut, place_of, take_job};
