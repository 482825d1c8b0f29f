//! What is kept of a description, and what a descriptor refers to.
use posix_types::Flags;

/// An open description: its number, which no other ever has, its inode, its offset in bytes, and
/// how it was opened.
#[derive(Clone, Copy)]
pub struct Kept {
    pub number: u64,
    pub ino: u32,
    pub offset: u64,
    pub flags: Flags,
}

/// What a descriptor refers to: a description by its number, and the slab key under which it is.
#[derive(Clone, Copy)]
pub struct Reference {
    pub number: u64,
    pub key: usize,
}
