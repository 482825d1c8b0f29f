//! A file gets another size while writes are in flight.
//!
//! Lemmas alone. `truncate` of a file of which nothing is staged cleans the rest of its last block,
//! where it grows, and then gives it the new size, which writes the file's new chain. The layer
//! above may rely on this: once its end is clean, each image has zeros behind it (`CleansBehind`),
//! if nothing lay past the end; done, K-Split, the open files, the staging, what is kept of files
//! and the jobs that are out stand together in the next state of the call (`StandsSized`); and
//! where the power goes in it, each image, with log lines and blocks put back, is kept with the
//! call as the last of the unfinished ones (`KeepsSized`).

ghost use Rattle.file_truncate.specs.Sizes.{CleansBehind, KeepsSized, StandsSized};

/// A file gets another size in flight.
pub fn a_file_gets_another_size_in_flight()
    ensures clean { CleansBehind }
    ensures done { StandsSized }
    ensures cut { KeepsSized }
{}

pub use file_calls::{NoMemory, OpenFiles};
pub use log_replay::{KFault, KSplit};
