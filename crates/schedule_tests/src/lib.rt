//! Scripts that are run event by event: of several threads by schedules, and of sync mode.
//!
//! `beside` has tables in the language of `test_kit`, run by `split_tables`, with two and three calls in flight at each step.
//! `interleavings` has all orders of two threads that write, each cut behind every event, and `many` the longest script. What is
//! left by a loss is judged, and where the events say what has to be left, it has to be that. `overwrites` has scripts of one
//! thread in sync mode, told by their events and their steps.
//!
//! `worlds` runs Worlds by hand, event by event, and tells them that the power went; what may still come of a job behind that, no
//! clause of the machine speaks of, since it crashes at once. There it is proved that each call may come.
//!
//! What is tested is shown alone. Stands on `split_tables` and `test_kit`, and `worlds` on `split_machine` and `run_laws` as well.
#![tactic(auto)]

#[cfg(test)]
mod asserting;
#[cfg(test)]
mod beside;
#[cfg(test)]
mod interleavings;
#[cfg(test)]
mod many;
#[cfg(test)]
mod overwrites;
#[cfg(test)]
mod worlds;
