//! What a look-up finds.
use posix_types::Flags;

/// An open description, as a handle stands for it: the key of its offset for `set_offset`, until the
/// handle is closed; its inode, its offset in bytes, and how it was opened.
#[derive(Clone, Copy)]
pub struct Opened {
    pub key: usize,
    pub ino: u32,
    pub offset: u64,
    pub flags: Flags,
}
