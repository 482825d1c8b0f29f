//! What the lines of an image stand for, one by one.
//!
//! The types of what lies in the lines (`Inode`, `Draft`), and the definitions that the layers above cite: how an
//! inode line, a name line and a log entry are spelled and read, the names of an image as rows with their look-ups,
//! the fresh image, and laws of all these. No work is done here: the codecs are crates above, and what an image
//! stands for as a whole is said in `image_model`.

/// What an inode line is used for.
#[derive(Clone, Copy, Debug, PartialEq, Eq)]
pub enum Kind {
    /// Nothing.
    Free,
    /// A directory.
    Directory,
    /// A file.
    File,
    /// One of the four staging files, inodes 1 to 4.
    Staging,
}

/// The content of an inode line.
#[derive(Clone, Copy, Debug, PartialEq, Eq)]
pub struct Inode {
    pub kind: Kind,
    /// How often the line was taken, modulo 2^32. An entry of the log names it, so that an entry of a file that
    /// is gone is told from one of the file that has its line now.
    pub generation: u32,
    /// A file's length, in bytes, at most 16,777,216.
    pub size: u64,
    /// The greatest order of an entry of the log that stands in the file's map already, at most 2^63.
    pub applied: u64,
    /// The block of the first chain block of the map, 0 for none.
    pub root: u32,
    /// How many extents the map has.
    pub extents: u32,
}

/// What an entry of the log says: blocks of a staging file that replace blocks of a file.
#[derive(Clone, Copy, Debug, PartialEq, Eq)]
pub struct Draft {
    /// How many blocks, 1 to 33.
    pub count: u16,
    /// The place of the entry among those of its file, 1 to 2^63.
    pub order: u64,
    /// The file's inode, and the generation of its line.
    pub ino: u32,
    pub generation: u32,
    /// The first file block; the last is below 4,096.
    pub file_block: u32,
    /// The staging file's inode, 1 to 4.
    pub staging: u32,
    /// Its first block; the last is below 64.
    pub staging_block: u32,
    /// The generation of its line.
    pub staging_generation: u32,
    /// The file's length afterwards, in bytes, at most 16,777,216.
    pub size: u64,
}
