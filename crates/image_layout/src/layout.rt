//! The layout of an image: the numbers that make it, where each of its parts lies, and its
//! superblock.
//!
//! A `Geometry` always has its numbers in range. Its places are those of the definitions
//! (`layout_model`): lines are counted from the first line of the image, 64 bytes each, blocks from
//! its first block, 64 lines each. The parts are apart: block 0, the records of the journal, the
//! inode lines, the name lines, the log lines and the data blocks follow one another
//! (`regions_are_apart`). A line is read as a superblock exactly where it is the superblock of a
//! geometry, and the first fault is named where it isn't; what `superblock` writes is read as the
//! same geometry (`superblock_is_read_back`).

mod geometry;
mod superblock;

pub use geometry::{Geometry, regions_are_apart};
pub use superblock::{SuperFault, read_superblock, superblock_is_read_back};
