//! Threads that append to a log at once, and that take turns at a list.
//!
//! Logs of lines of zeros are filled and closed, and the lines and what the appends answered are looked at: one line and an
//! append at each number of device steps; 1,024 lines and eight threads with 200 drafts each. A turn is taken by eight threads
//! a thousand times each: `entries` is an example of a protocol, by which each entry stands in the list as often as passes
//! appended it. And who leaves a turn wakes one that sleeps: a value that is slow to be put back has a protocol that asks nothing
//! (`heavies`).
//!
//! What is proved is that each call may be made, and that the entries keep their protocol; the rest is shown alone. Stands on
//! `oplog_tail` and `ruled_turn`.
#![tactic(auto)]

#[cfg(test)]
mod appending;
mod entries;
mod heavies;
#[cfg(test)]
mod lines;
#[cfg(test)]
mod lost;
#[cfg(test)]
mod threads;
#[cfg(test)]
mod turns;
#[cfg(test)]
mod waking;

pub use entries::{Appends, EntryPass, EntryTurn, Own};
pub use heavies::{Anything, Heavy, HeavyPass, HeavyTurn};
