//! A run of staging blocks that is handed out, and why none is.
ghost use Rattle.std.specs.Prelude.{◌≡◌, ◌↔◌, IsTrue};

use thiserror::Error;

/// Blocks of a staging file that lie one after the other, for one write.
#[derive(Clone, Copy, Debug, PartialEq, Eq)]
pub struct StageRun {
    /// The staging file, inode 1 to 4.
    pub staging: u32,
    /// The first block, counted from the start of the staging file, below 64.
    pub block: u32,
    /// How many blocks, from 1 to 33.
    pub count: u32,
    /// The generation of the staging file.
    pub generation: u32,
}

impl StageRun {
    // Whether both are the same run.
    pub(crate) fn is_same(&self, other: &StageRun) -> bool
        ensures { IsTrue result ↔ (self.now ≡ other.now) }
    {
        self.staging == other.staging
            && self.block == other.block
            && self.count == other.count
            && self.generation == other.generation
    }
}

/// Why no run is handed out.
#[derive(Clone, Copy, Debug, PartialEq, Eq, Error)]
pub enum StageFault {
    /// Neither way can be gone: so many free blocks are needed for a staging file to get blocks, and
    /// so many are free, or 0 where no staging file is empty.
    #[error("{need} free blocks are needed, and {room} are there")]
    NoRoom { need: u32, room: u32 },
    /// The power is off.
    #[error("the power is lost")]
    PowerLost,
    /// There is no memory.
    #[error("out of memory")]
    NoMemory,
}
