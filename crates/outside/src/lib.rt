//! The outside of the program, behind two traits: files that are read and replaced whole, and a
//! sink for output.
//!
//! What the layer above may rely on are the traits' meanings: the list of files and the bytes
//! taken, where an object tells them, and counts of failures that never fall, so that a failure
//! that is reported has a cause that anyone can see. `MemFiles` and `MemSink` keep all in memory,
//! tell it, and fail at just the calls that they are given. `DiskFiles` and `OutSink` are the real
//! ones: they tell nothing, since no contract can say what a disk holds, and count their failures
//! from 0. `OutSink::put` says what its writer has taken, where the writer tells it. `DiskFiles`
//! gives a new file the name of another only once it has all of the bytes and is on the disk:
//! proved over any folder, from what its steps tell. That the real steps do so, that the right
//! bytes are read, and that `OutSink` flushes, is tested.
//!
//! Stands on std and `thiserror`.
#![tactic(auto)]

mod disk;
mod faults;
mod folder;
mod memory;
mod replace;
mod written;

pub use disk::{DiskFiles, LONGEST_READ, OutSink, ReadFault, read_whole};
pub use faults::{FileFault, Files, Sink, SinkFault};
pub use memory::{MemFiles, MemSink};
