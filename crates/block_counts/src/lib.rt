//! How many blocks things take: the bytes of a file, the chain of its map, and the reserve.
//!
//! One arithmetic for both halves. The meaning of the calls refuses a write by it, the image is laid
//! out and checked by it, and chains are written by it, so that what the calls promise and what the
//! disk needs are the same numbers.
//!
//! The definitions stand in `specs/Counts.antt`; the functions here are those definitions. It stands
//! on nothing.
#![tactic(auto)]

ghost use Rattle.std.specs.Prelude.{◌≡◌, ◌^◌, ◌≤◌};
ghost use Rattle.block_counts.specs.Counts.{blocks_for, chains_for, held_by, reserve_for};

/// The bytes of a block.
pub const BLOCK: u64 = 4096;

/// The longest file, in bytes.
pub const LONGEST_FILE: u64 = 16_777_216;

/// The most bytes that one write may have.
pub const LONGEST_WRITE: usize = 131_072;

/// The blocks of the longest file.
const FILE_BLOCKS: u32 = 4096;

/// The extents that one chain block holds.
const EXTENTS: u64 = 255;

/// How many blocks so many bytes take.
pub fn blocks_for(bytes: u64) -> u64
    ensures count { result ≡ blocks_for bytes }
    ensures bounded { result ≤ 2 ^ 52 }
{
    bytes.div_ceil(BLOCK)
}

/// How many chain blocks so many extents take.
pub fn chains_for(extents: u64) -> u64
    ensures count { result ≡ chains_for extents }
    ensures bounded { result ≤ extents }
{
    extents.div_ceil(EXTENTS)
}

/// How many blocks a file of so many bytes holds, those of its chain included.
pub fn held_by(bytes: u64) -> u64
    ensures count { result ≡ held_by bytes }
    ensures bounded { result ≤ 2 ^ 53 }
{
    let blocks = blocks_for(bytes);
    blocks + chains_for(blocks)
}

/// How many of so many data blocks no file may hold.
pub fn reserve_for(data_blocks: u32) -> u32
    ensures count { result ≡ reserve_for data_blocks }
    ensures bounded { result ≤ 20 }
{
    let extents = data_blocks.min(FILE_BLOCKS);
    extents.div_ceil(255) + 3
}
