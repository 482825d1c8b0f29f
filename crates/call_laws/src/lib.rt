//! Laws of a World's calls: how one that puts no bytes begins and ends at once, and how a write begins.
//!
//! A World at its next call may publish first; the call returned, became a job, ended the round or
//! lost the power, each with the World that then stands.
//!
//! - `calls`: How a call of a World begins and ends at once.
//! - `puts`: How a write of a World begins.
//!
//! Stands on `file_publish`, `file_truncate`, `in_place`, `world_view_laws` and `write_begin`.
#![tactic(auto)]

mod calls;
mod puts;

pub use calls::{Truncated, lacks_room, publish_file, truncate_file};
pub use puts::{
    WriteBegun, begin_write, jobs_need_what_their_calls_do, kept_numbers_are_those_of_the_state,
    need_of,
};
pub use world_view_laws::move_by;
