//! The order in which the threads of a run are picked, as the program has it.
//!
//! `Order` is a list of threads, a seed or turns. Clauses see by `seen_order` (`specs/Seen.antt`) the order that
//! it means, one of those by which the machine over events picks (`crash_spec`, `Orders`). A `Picker` is an order
//! with how far it came (`IsSoFar`). The layers above may rely on this: an option of the command line reads an
//! order, and what a picker picks is a pick of its order, whichever threads can run (`PicksNext`).
//!
//! - `order`: Orders of threads.
//! - `picks`: Which thread comes next, of those that can run.
//!
//! Stands on `crash_spec`, for the meaning of an order, and on `rand_xoshiro` for the draws.
#![tactic(auto)]

mod order;
mod picks;

pub use order::Order;
pub use picks::{Picker, Source};
