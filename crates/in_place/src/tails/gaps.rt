//! A write in a later block than its file's end finds zeros between them.
//!
//! `clear_gap` zeroes in place what lies behind the end of the file in the block of this end: in the map of
//! the file, or in the staging file where a staged run has the block; a hole costs no step. In later blocks
//! nothing lies (`FilesEnd`). The layer above may rely on this: what lies between the end of the file and the
//! block of the write reads zero in each image (`ReadZero`), and no call sees a change (`Clears`); where the
//! power goes in it, each image with log lines and blocks put back is kept (`LosesGap`). It takes no memory.

mod gaps;

pub use crate::tails::zeros::blocks_are_zeroed_in_flight;
pub use gaps::clear_gap;
