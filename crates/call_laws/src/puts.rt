//! How a write of a World begins.
//!
//! Lemmas alone, over what `world_view_laws` says that a World keeps, and what `write_begin` answers. The layer above may
//! rely on this: a World at its next call, a write that no job keeps waiting, meets what `begin_write` asks (`found_at`);
//! and by what it answers the write returned (`answers`), it became a job (`begins_job`), it was written in place and
//! returned (`writes_now`), it ended the round for want of space (`write_ends_round`), or it lost its power
//! (`loses_call`); each time with the World that then stands. `Rows` says what a row means for its step, and what the
//! staging lacks in its own words and in the World's; `Filling` the same of the holes of its file.

pub use crate::calls::{Truncated, lacks_room, publish_file, truncate_file};
pub use write_begin::{
    WriteBegun, begin_write, jobs_need_what_their_calls_do, kept_numbers_are_those_of_the_state,
    need_of,
};
