//! Bytes behind the end of a file are zeroed in place while writes are in flight.
//!
//! Lemmas alone. A write that begins in a later block than the file's end finds zeros between them: the
//! block of the end is zeroed in place first, in the map of the file or in a staging file. The layer above
//! may rely on this: where K-Split, the open files, the staging, what is kept of files and the jobs that are
//! out stand together, and none of these jobs is of the file, a staged block can be zeroed
//! (a block of any file that is staged can be written in place, `StandsToPlace`), and they stand
//! together in the same state when it is done (`StandsZeroed`); where the power goes in it each image, with
//! log lines and blocks put back, is kept (`KeepsZeroed`); and what was zeroed reads zero (`ZeroedReadZero`).

ghost use Rattle.in_place.specs.ZerosLaws.{KeepsZeroed, StandsToPlace, StandsToZero, StandsZeroed, ZeroedReadZero};

/// Blocks behind the end of a file are zeroed in flight.
pub fn blocks_are_zeroed_in_flight()
    ensures place { StandsToPlace }
    ensures may { StandsToZero }
    ensures done { StandsZeroed }
    ensures cut { KeepsZeroed }
    ensures zeroed { ZeroedReadZero }
{}

pub use crate::tails::cleans::{FileTable, the_end_of_a_file_is_cleaned_in_flight};
