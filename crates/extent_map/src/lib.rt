//! Extents: the finite map from the blocks of a file to blocks of the disk.
//!
//! A map is kept as extents, runs of file blocks that lie one after the other on the disk. Contracts
//! see an `ExtentMap` as its list of extents and read it block by block: `disk_at es b` is the disk
//! block of file block b, if it has one. The list is the one spelling of the map (`IsCanonical`): the
//! extents rise, do not overlap, and no two of them could be one. So maps that agree everywhere have
//! the same extents.
//!
//! The layer above may rely on this: a look-up is `disk_at`; each change says for every file block
//! what it has afterwards and what was displaced, how many extents and blocks there are then, and
//! from where its disk blocks come; where memory is short, the map is as before.
//!
//! File blocks are below 4,096, disk blocks and their ends below 2^32. It stands on `extent_model`.
//!
//! `from_extents` answers None exactly where the list is no map's spelling, without memory. A run of no
//! blocks changes nothing.
#![tactic(auto)]

ghost use Rattle.extent_model.specs.Spelling.{HasOneSpelling};

mod extents;
mod map;
mod pieces;

pub use extent_model::{Extent, FILE_BLOCKS};
pub use map::ExtentMap;

/// Two maps that give every file block the same disk block have the same extents.
pub fn maps_have_one_spelling()
    ensures { HasOneSpelling }
{}
