//! What a World that stands together says of its jobs, its claims and its counts.
//!
//! Lemmas alone, over what `live_model` keeps: a call that no job keeps waiting lets all jobs be, and leaves them
//! the words of their calls (`Jobs`); what the claims of a file are once it is published (`Claims`); how many jobs and
//! how many runs there are (`Counts`). The layer above, which keeps a World, cites them where a call ends.

pub use crate::script_calls::{
    Counters, call_at, calls_made, count_call, next_in, no_calls, script_length,
};
pub use live_model::{Commit, Filled, FilledJob, Job, KSplit};
