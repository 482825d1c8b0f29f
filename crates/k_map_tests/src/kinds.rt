//! Calls on maps, and how they went.
use k_split::Move;
use posix_types::Room;

/// Bytes that are all the same, put at a place.
#[derive(Clone, Copy)]
pub struct Put {
    /// The place of the first byte.
    pub at: u32,
    /// How many bytes.
    pub count: u32,
    /// Each of the bytes.
    pub byte: u8,
}

/// A call on the maps or the bytes of a K-Split.
#[derive(Clone, Copy)]
pub enum MapCall {
    /// `set_size` of a file.
    Size {
        /// The file.
        ino: u32,
        /// Its new size in bytes.
        size: u32,
    },
    /// `fill_holes` of a range of file blocks.
    Fill {
        /// The file.
        ino: u32,
        /// The first file block.
        first: u32,
        /// How many file blocks.
        count: u32,
    },
    /// `preallocate` for a staging file without blocks.
    Take {
        /// The staging file.
        staging: u32,
        /// How many blocks.
        count: u32,
    },
    /// `give_up` of a staging file.
    Give {
        /// The staging file.
        staging: u32,
    },
    /// `relink` of blocks of a staging file.
    Relink(Move),
    /// `write_in_place` of a file.
    Write {
        /// The file.
        ino: u32,
        /// The bytes, and their place in the file.
        bytes: Put,
    },
    /// `write_staged` into a block of a staging file.
    Stage {
        /// The staging file.
        staging: u32,
        /// The block of the staging file.
        block: u32,
        /// The bytes, and their place in the block.
        bytes: Put,
    },
    /// `clean_tail` of a file.
    Clean {
        /// The file.
        ino: u32,
        /// The first byte that is cleaned.
        from: u32,
    },
}

/// How a call went.
#[derive(Clone, Copy, PartialEq, Eq)]
pub enum Reply {
    /// It was made.
    Done,
    /// It was refused for want of blocks, and nothing was changed.
    Room(Room),
    /// The power was lost in it.
    Lost,
    /// What it asks for is not there, and it was not made.
    Unfit,
}
