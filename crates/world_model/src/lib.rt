//! What the World is, as mathematics: a volume and its live log entries stand for a state of the calls.
//!
//! `Valid` and `IsWorld` are the invariant that every step keeps; what an image shows of a valid
//! world is a tree that the mode permits, and its log keeps the rules of a checked image. What
//! files hold is one sum.
//!
//! - `rules`: The World's rules: when a volume with live log entries stands for a state of the
//!   calls, what a logged write in flight is, and when a world is valid.
//! - `promise`: What the World promises of a power loss.
//! - `log_rules`: The log of an image that shows a valid world keeps the rules of a checked image.
//! - `held`: What files hold, as a sum over the inodes.
//!
//! Stands on `posix_laws`, `crash_spec` and `name_laws`.
#![tactic(auto)]

mod held;
mod log_rules;
mod promise;
mod rules;

pub use held::what_files_hold_is_the_sum;
pub use log_rules::{an_image_keeps_the_rules_of_its_log, an_image_shows_claims_and_jobs};
pub use promise::{
    a_lost_call_may_stand_last, an_image_has_a_tree, strict_mode_keeps_its_promise,
    sync_mode_keeps_its_promise,
};
pub use rules::a_world_is_valid;
