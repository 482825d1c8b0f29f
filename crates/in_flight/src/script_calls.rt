//! The calls of scripts: how many of each caller have returned, and which is its next.
//!
//! The layer above keeps a history of the calls that returned, and may rely on this: one number for each caller
//! counts its items (`AreCounts`, and `counts_more` with one item more); the call at that place of its script is
//! its next (`call_at`, `next_in`); a history that follows its scripts has at most their calls
//! (`history_within`); and with the next call of one caller at its end it follows them again, while the next
//! calls of all others stay (`Histories`).

mod counters;
mod scripts;

pub use counters::{Counters, calls_made, count_call, no_calls};
pub use scripts::{call_at, next_in, script_length};
