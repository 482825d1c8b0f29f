//! Zeros between the end of a file and a write behind it, put in place and durable.
//!
//! `clear_gap` zeroes what lies there, which is in the block of the end alone, mapped or staged; then
//! all between reads zero in each image, and no call sees a change. It takes no memory.
//!
//! - `cleans`: The end of a file is cleaned while writes are in flight.
//! - `zeros`: Bytes behind the end of a file are zeroed in place while writes are in flight.
//! - `gaps`: A write in a later block than its file's end finds zeros between them.
//!
//! The end of a file is cleaned only where no job that is out is of this file.
//!
//! Stands on `live_step_laws`, `write_plan`, `fsync_relink`, `pm_lines`, `extent_map`,
//! `k_split_laws`, `k_journal` and `k_split`.

mod cleans;
mod gaps;
mod laws;
mod zeros;

pub use cleans::{
    Commit, FileTable, kept_numbers_are_those_of_the_state, room_by,
    the_end_of_a_file_is_cleaned_in_flight, truncate_row,
};
pub use gaps::clear_gap;
pub use zeros::blocks_are_zeroed_in_flight;
