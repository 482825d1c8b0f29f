//! Runs of staged blocks.
ghost use Rattle.std.specs.Prelude.{◌≡◌, true};
ghost use Rattle.file_overlay.specs.Runs.{has_block, place_in, FitsRun};

/// File blocks that are staged one after the other in a staging file.
#[derive(Clone, Copy, Debug, PartialEq, Eq)]
pub struct Run {
    /// The first file block.
    pub file_block: u32,
    /// The inode of the staging file.
    pub staging: u32,
    /// The block of the staging file that has the first file block.
    pub staging_block: u32,
    /// The number of blocks.
    pub count: u32,
    /// The order of its entry in the log.
    pub order: u64,
}

impl Run {
    // Whether the run has a file block.
    pub(crate) fn has(&self, block: u32) -> bool
        ensures { result ≡ has_block block self.now }
    {
        self.file_block <= block && block - self.file_block < self.count
    }

    // The staging file and the block in it of a file block that the run has.
    pub(crate) fn place_of(&self, block: u32) -> (u32, u32)
        requires fits { FitsRun self.now }
        requires has { has_block block self.now ≡ true }
        ensures { result ≡ place_in block self.now }
    {
        (self.staging, self.staging_block + (block - self.file_block))
    }
}
