//! What a relink is asked for.

use std::marker::Model;

/// Blocks of a staging file that go to a file, with what the file has then.
#[derive(Clone, Copy, Debug, PartialEq, Eq)]
pub struct Move {
    /// The staging file, inode 1 to 4.
    pub staging: u32,
    /// The first of its blocks that goes, below 64.
    pub staging_block: u32,
    /// The inode of the file.
    pub ino: u32,
    /// The first file block that they are put at, below 4,096.
    pub file_block: u32,
    /// How many blocks go.
    pub count: u32,
    /// The length of the file then, in bytes.
    pub size: u64,
    /// The order of the last log entry that is carried out then.
    pub applied: u64,
}

/// A run of blocks of a staging file that goes to a file.
#[derive(Clone, Copy, Debug, PartialEq, Eq)]
pub struct MoveRun {
    /// The staging file, inode 1 to 4.
    pub staging: u32,
    /// The first of its blocks that goes, below 64.
    pub staging_block: u32,
    /// The first file block that they are put at, below 4,096.
    pub file_block: u32,
    /// How many blocks go.
    pub count: u32,
}

/// Runs that go to a file by one landing, with what the file has then.
#[derive(Debug, Drop)]
pub struct Landing {
    /// The inode of the file.
    pub ino: u32,
    /// The runs, in their order: a later one displaces an earlier one in the same file block.
    pub runs: Vec<MoveRun>,
    /// The length of the file then, in bytes.
    pub size: u64,
    /// The order of the last log entry that is carried out then.
    pub applied: u64,
}

impl Model for Landing {
    ghost use Rattle.k_split_model.specs.MapChangesChanges.{Landing};

    ghost Value = { Landing };

    ghost view = { λ m. record { ino = m.ino; runs = m.runs.items; size = m.size; applied = m.applied } };
}
