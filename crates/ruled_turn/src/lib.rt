//! A turn with a rule, which threads take one after another.
//!
//! A value lies in the slot of a table. A thread enters with its pass, waits while another is inside, and has
//! the value alone until it leaves one. What the value and the passes keep is the caller's `Protocol`: facts
//! of the value and of the views of all passes. One who enters learns what the protocol says of the value and
//! of its own view; one who leaves owes what the protocol allows; and once the turn is closed, the rule holds
//! of the value and of the views of all passes. A thread that waits looks again for some microseconds, then sleeps.
//!
//! That a thread that waits is let in is not promised.
//!
//! The word of a turn is 0 or 1, and the view of a pass is a type of the caller's protocol.
//!
//! Stands on `list_laws` and the kit's `atomic_table` and `crossbeam_utils`.
#![tactic(auto)]

mod closing;
mod entering;
mod opening;
mod passes;
mod protocols;
mod table;
mod turns;
mod views;

pub use passes::Pass;
pub use protocols::Protocol;
pub use turns::Turn;
