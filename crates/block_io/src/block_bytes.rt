//! Bytes of blocks on the device: written over in place, set to zero, read.
//!
//! `write_bytes` writes a range of a file over, in the blocks that its map names: it stores each word of
//! the range, flushes each line that it touched once, and fences once. The layer above may rely on this:
//! wherever the power goes, each image is one of those before, but for bytes of the range, each of which is
//! the old one or the new one (`IsOverwritten`); with power left at the end each of them is the new one, and
//! durable. `zero_blocks` and `zero_lines` put zeros likewise. `read_block` reads what was stored last.
//!
//! No call takes memory.

ghost use Rattle.block_io.specs.Puts.{PutsBytes};

mod blocks;
mod lines;
mod pieces;
mod ranges;
mod words;

pub use blocks::{read_block, zero_blocks};
pub use lines::zero_lines;
pub use ranges::write_bytes;

/// Each byte that is put is there afterwards, and each other byte is as it was.
pub fn bytes_are_put()
    ensures { PutsBytes }
{}

pub use k_split_model::Move;
