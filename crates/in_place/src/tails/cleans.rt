//! The end of a file is cleaned while writes are in flight.
//!
//! Lemmas alone. A write that begins in a later block than the file's end sets the rest of the last
//! block to zero first, in place. The layer above may rely on this: where K-Split, the open files,
//! the staging, what is kept of files and the jobs that are out stand together, and none of these
//! jobs is of the file, they stand together in the same state when it is done (`StandsCleaned`);
//! and where the power goes in it, each image, with log lines and blocks put back, is kept
//! (`KeepsCleaned`).

ghost use Rattle.in_place.specs.CleansLaws.{KeepsCleaned, StandsCleaned};

/// The end of a file is cleaned in flight.
pub fn the_end_of_a_file_is_cleaned_in_flight()
    ensures done { StandsCleaned }
    ensures cut { KeepsCleaned }
{}

pub use write_plan::{
    Commit, FileTable, kept_numbers_are_those_of_the_state, room_by, truncate_row,
};
