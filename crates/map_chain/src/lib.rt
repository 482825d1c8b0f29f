//! Chains: the extents of a file's map as they stand in blocks of the device.
//!
//! A map takes one block for each 255 extents. Word 0 of a block has the next block, 0 in the last
//! one, and above it (times 2^32) the number of its extents; word 1 is zero; then come two words an
//! extent, its file block with its disk block above it, and its count. All other words are zero.
//!
//! The layer above may rely on this: `write` puts a map into new blocks and makes it durable, so
//! that in every image a read from the first block finds the map and these blocks; wherever the
//! power goes, each image differs from one before at most in words of these blocks. `read` answers
//! a map and its blocks exactly where a map of so many extents stands there, with all other words
//! zero. That blocks and extents lie in the data region is for the layer above to test:
//! `volume_laws` joins a chain that was read to the rule of a checked image.
//!
//! `write` ends in a fence, which ends marks of other words too (`ended`). `read` asks that the blocks it
//! comes to are not lent, so others may be.
//!
//! It stands on `pm_lines` (the device), `extent_map` (the map), `image_model` (the spelling) and
//! `block_counts` (how many blocks a map takes).
#![tactic(auto)]

ghost use Rattle.volume_laws.specs.image_model.Standing.{ReadsBack, HasOneChain};

mod reading;
mod words;
mod writing;

pub use reading::{Chain, read};
pub use writing::write;

/// What is written is what is read: blocks that spell a map are the chain that one comes to from
/// the first of them, and a root and a number of extents lead to one chain and one map at most.
pub fn chain_reads_back()
    ensures back { ReadsBack }
    ensures one { HasOneChain }
{}
