//! Laws of writes in flight: each keeps its effect under the calls of others, and may be done in either order.
//!
//! Where the busy rule lets a call through, a write out has at its end the effect and the need of
//! its beginning, and state and outcomes are the same whichever comes first.
//!
//! - `frames`: What the calls of others keep of a logged write that is in flight.
//! - `orders`: Writes in flight and a call of others give the same in either order.
//!
//! Stands on `posix_laws` and `crash_spec`.
#![tactic(auto)]

mod frames;
mod orders;

pub use frames::{writes_find_their_room, writes_keep_their_effect};
pub use orders::{parts_of_writes_keep_the_rest, writes_are_counted, writes_commute};
