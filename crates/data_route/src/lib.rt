//! Plans of reads and writes: which bytes go to staged blocks, which are written in place, and where
//! the bytes of a read lie.
//!
//! `plan_write` says by the mode what a write stages, in whole blocks, what it writes in place, whether
//! the bytes behind the old end are cleaned first, and how long the file is afterwards (`plan_of`).
//! `plan_read` answers pieces of blocks that are together the bytes of the file, in order
//! (`IsReadPlan`): a byte lies in the staged block of the last run laid there, else in the block of
//! the map, else it is zero.
//!
//! The layer above may rely on this: each byte of a write is either staged or in place
//! (`CoversOnce`), only bytes of the write that are below the old length are in place, and a write of
//! up to 131,072 bytes stages 1 to 33 blocks (`StagesFewBlocks`). Files have at most 16,777,216 bytes.
//! Neither call touches a device.
//!
//! Sync and POSIX mode have one plan of a write; a write of no byte has a plan, which does nothing.
//! `write_begin` stages what the plan stages, and writes in place what it writes there.
//!
//! It stands on `file_overlay`, `map_collection`, `extent_map` and the modes of `posix_types`.
#![tactic(auto)]

ghost use Rattle.data_route.specs.Laws.{CoversOnce, StagesFewBlocks, WritesOldBytesInPlace};

mod reads;
mod writes;

pub use reads::{Piece, Source, plan_read};
pub use writes::{WritePlan, plan_write};

/// Each byte of a write is staged or written in place, and not both.
pub fn each_byte_is_covered_once()
    ensures { CoversOnce }
{}

/// Only bytes of the write that are below the old length are written in place.
pub fn old_bytes_are_in_place()
    ensures { WritesOldBytesInPlace }
{}

/// A write of 1 to 131,072 bytes stages 1 to 33 blocks, which lie in the file.
pub fn few_blocks_are_staged()
    ensures { StagesFewBlocks }
{}

pub use map_collection::Collection;
