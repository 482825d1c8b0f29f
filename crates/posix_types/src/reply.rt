//! The replies, and the room of a file system.
ghost use Rattle.std.specs.Prelude.{◌≡◌};

use crate::data::Data;
use crate::name::NameList;
use std::alloc::AllocError;

/// What a call answers. A descriptor's number, how many bytes a write wrote, the offset that a seek
/// left in bytes, the bytes of a read, what `stat` and `list` found, or an error.
#[derive(Drop)]
pub enum Reply {
    Ok,
    Fd(u32),
    Count(u64),
    Offset(u64),
    Bytes(Data),
    Stat(Stat),
    Names(NameList),
    Error(Errno),
}

impl Clone for Reply {
    ghost is_clone = { λ a b. b ≡ a };

    fn clone(&self) -> Result<Reply, AllocError> {
        match self {
            Reply::Ok => Ok(Reply::Ok),
            Reply::Fd(number) => Ok(Reply::Fd(*number)),
            Reply::Count(count) => Ok(Reply::Count(*count)),
            Reply::Offset(offset) => Ok(Reply::Offset(*offset)),
            Reply::Bytes(bytes) => Ok(Reply::Bytes(bytes.clone()?)),
            Reply::Stat(stat) => Ok(Reply::Stat(*stat)),
            Reply::Names(names) => Ok(Reply::Names(names.clone()?)),
            Reply::Error(errno) => Ok(Reply::Error(*errno)),
        }
    }
}

/// What stands at a path: a directory, or a file of so many bytes.
#[derive(Clone, Copy, Debug, PartialEq, Eq)]
pub enum Stat {
    Directory,
    File(u64),
}

/// The errors of POSIX that the calls answer.
#[derive(Clone, Copy, Debug, PartialEq, Eq)]
pub enum Errno {
    ENOENT,
    EEXIST,
    ENOTDIR,
    EISDIR,
    ENOTEMPTY,
    EBADF,
    EINVAL,
    EPERM,
    ENAMETOOLONG,
    EMFILE,
    EFBIG,
    ENOSPC,
    EBUSY,
}

/// What a call found used up: data blocks, nodes (inode lines) or names (name lines).
#[derive(Clone, Copy, Debug, PartialEq, Eq)]
pub enum What {
    Blocks,
    Nodes,
    Names,
}

/// How much a refused call needed, and how much was left.
#[derive(Clone, Copy, Debug, PartialEq, Eq)]
pub struct Room {
    pub what: What,
    pub need: u64,
    pub room: u64,
}

/// The sizes of a file system: its data blocks, and how many nodes (the root counts) and how many
/// name lines it can hold.
#[derive(Clone, Copy, Debug, PartialEq, Eq)]
pub struct Shape {
    pub data_blocks: u32,
    pub nodes: u32,
    pub names: u32,
}
