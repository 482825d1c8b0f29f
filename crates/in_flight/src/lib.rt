//! Which calls are in flight: each caller's next call, the jobs that are out, and the files that they keep busy.
//!
//! `keeper` tells whether a call waits for a job of another, exactly by the busy rule; counters
//! tell which call of a script is the next; what claims and jobs count is said over what stands
//! together.
//!
//! - `script_calls`: The calls of scripts: how many of each caller have returned, and which is its
//!   next.
//! - `counts`: What a World that stands together says of its jobs, its claims and its counts.
//! - `jobs`: The logged writes that are out, as a World keeps them, and the files that they keep
//!   busy.
//!
//! Stands on `posix_types`, `live_model`, `layout_model` and `open_files`.
#![tactic(auto)]

mod counts;
mod jobs;
mod script_calls;

pub use counts::{Commit, Filled, FilledJob, Job, KSplit};
pub use jobs::{JobOut, OpenFiles, keeper, place_of, take_job, waits_for};
pub use script_calls::{
    Counters, call_at, calls_made, count_call, next_in, no_calls, script_length,
};
