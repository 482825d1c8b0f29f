//! A job of a World ends: it finishes, or is given up.
//!
//! The layer above may rely on this: while the power is on, a job whose entry stands in its slot finishes, its blocks come
//! back and its item is added (`finish_on`, `Finishes`), in sync mode once its bytes before the entry's blocks are written
//! in place; and one that found no line left goes back to its start and ends the round, where nothing ended it before
//! (`give_up_on`, `GivesUp`); once the power went the latter does so too (`give_up_off`), and the former's blocks come
//! back, and it stays out, one of the calls that are unfinished (`finish_off`, `LosesFinish`), as it does where the power
//! goes while those bytes are written. None takes memory, and `finish_on` alone makes steps, in sync mode. Where the power
//! is found off as a job ends, that is one act (`lose_one` of `world_parts`); the lemmas of `Lost` put that and the end
//! together.

mod ends;

pub use ends::{finish_off, finish_on, give_up_off, give_up_on};
pub use world_parts::{
    Commit, Crashed, Ended, FileTable, FilledJob, Job, JobOut, NoMemory, Parts, Unfinished, gather,
    lose_one, put_lines,
};
