//! Words on extents: runs of file blocks that lie one after the other on the disk.
//!
//! The type `Extent` and definitions alone: which disk block a list of extents gives a file block
//! (`disk_at`), the one spelling of a map (`IsCanonical`), what a change of a map leaves and takes
//! (`IsPart`, `Replaces`), and what a relink moves (`Moves`). Maps, pools, chains and the rules of an
//! image cite them; the lemmas on them are in `extent_facts`.

/// The blocks that a file can have.
pub const FILE_BLOCKS: u32 = 4096;

/// A run of file blocks that lie one after the other on the disk.
#[derive(Clone, Copy, Debug, PartialEq, Eq)]
pub struct Extent {
    /// The first file block.
    pub file: u32,
    /// The disk block of the first file block.
    pub disk: u32,
    /// The number of blocks.
    pub count: u32,
}
