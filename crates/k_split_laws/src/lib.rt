//! Laws of K-Split's answers: each is a step of the World, or leaves a device that keeps the promise.
//!
//! They hold in strict and in sync mode beside any claims and writes in flight, with log lines at home or out;
//! a device that the power left within a change has its size, its lent words and a sound journal.
//!
//! - `exits`: The World's exits: what each answer of K-Split makes of the World.
//! - `lost`: What a power loss within a change leaves of a device of which lines and blocks are
//!   lent.
//! - `seen`: The changes are steps of what a volume is seen as, whatever the device is at.
//!
//! Stands on `world_write_laws`, `k_split` and `world_image_laws`.
#![tactic(auto)]

mod exits;
mod lost;
mod seen;

pub use exits::{
    a_second_step_ends_the_call, a_step_ends, a_step_ends_in_flight, changes_are_steps,
    replies_are_those_of_the_rows,
};
pub use k_split::{KFault, KSplit};
pub use lost::cuts_leave_devices;
pub use seen::{
    a_second_step_is_seen, changes_are_seen_as_steps, replies_are_those_of_what_is_seen,
};
