//! Translations of file blocks that were asked before.
//!
//! A `Collection` answers which disk block a file block has, by the file's map, and may keep what it
//! answered. Contracts see what it keeps: for each inode and file block the answer, if it has one.
//!
//! The layer above may rely on this: where what is kept of an inode agrees with the inode's map
//! (`Agrees`), `lookup` is what the map says, and what is kept agrees afterwards; what it keeps of
//! other inodes stays; after `forget` nothing of the inode is kept, so any map agrees. Whoever
//! changes a map that gave answers has to call `forget`.
//!
//! It keeps regions of 512 file blocks: the first question about a region takes all its translations from
//! the map's extents, later ones read the region. Regions stand in an ordered map, 8 for each inode, so a
//! look-up costs the logarithm of their number. From file block 4,096 on a map has nothing, and nothing is
//! kept. Where memory is short, `lookup` leaves what is kept as it was; `forget` takes none. No clause shows
//! the regions.
//!
//! It stands on `extent_map`.
#![tactic(auto)]

ghost use Rattle.map_collection.specs.Laws.{ForgottenAgrees};

mod collection;
mod regions;

pub use collection::Collection;

/// Where nothing is kept of an inode, every map agrees.
pub fn what_is_forgotten_agrees()
    ensures { ForgottenAgrees }
{}
