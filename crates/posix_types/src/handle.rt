//! What names an open file in a script, and how it is opened and sought.

/// A handle: the name by which its thread calls an open file, `len` of the 8 bytes (1 to 8 letters
/// or digits), and zeros behind them.
#[derive(Clone, Copy, Debug, PartialEq, Eq)]
pub struct Handle {
    pub len: u8,
    pub bytes: [u8; 8],
}

/// How a file is opened: for reading, for writing, each write at the end, made where it is missing,
/// refused where it exists (only with `create`), cut to length 0 (only with `write`).
#[derive(Clone, Copy, Debug, PartialEq, Eq)]
pub struct Flags {
    pub read: bool,
    pub write: bool,
    pub append: bool,
    pub create: bool,
    pub exclusive: bool,
    pub truncate: bool,
}

/// What `seek` counts from: the start of the file, the offset, or the end of the file.
#[derive(Clone, Copy, Debug, PartialEq, Eq)]
pub enum Whence {
    Set,
    Cur,
    End,
}
