//! Replies, put behind a text.
ghost use Rattle.std.specs.Prelude.{◌≡◌, ◌++◌, OnOk};
ghost use Rattle.report_text.specs.Texts.{errno_text, reply_text, room_text, stat_text, what_text};

use crate::bytes::{put_names, put_number, put_str};
use crate::data::put_data;
use posix_types::{Data, Errno, NameList, Reply, Room, Stat, What};
use std::alloc::AllocError;

/// The name of an error.
fn errno_word(errno: Errno) -> &'static str
    ensures { result.now ≡ errno_text errno }
{
    match errno {
        Errno::ENOENT => "ENOENT",
        Errno::EEXIST => "EEXIST",
        Errno::ENOTDIR => "ENOTDIR",
        Errno::EISDIR => "EISDIR",
        Errno::ENOTEMPTY => "ENOTEMPTY",
        Errno::EBADF => "EBADF",
        Errno::EINVAL => "EINVAL",
        Errno::EPERM => "EPERM",
        Errno::ENAMETOOLONG => "ENAMETOOLONG",
        Errno::EMFILE => "EMFILE",
        Errno::EFBIG => "EFBIG",
        Errno::ENOSPC => "ENOSPC",
        Errno::EBUSY => "EBUSY",
    }
}

/// The word of what was used up.
fn what_word(what: What) -> &'static str
    ensures { result.now ≡ what_text what }
{
    match what {
        What::Blocks => "blocks",
        What::Nodes => "nodes",
        What::Names => "names",
    }
}

/// Puts what a stat found.
fn put_stat(text: &mut Vec<u8>, stat: Stat) -> Result<(), AllocError>
    ensures { OnOk result (text.new.items ≡ text.old.items ++ stat_text stat) }
{
    match stat {
        Stat::Directory => put_str(text, "dir"),
        Stat::File(length) => put_number(text, "file ", length),
    }
}

/// Puts the bytes of a read.
#[tactic(auto, unfolding(crate::specs::Texts::reply_text))]
fn put_read(text: &mut Vec<u8>, bytes: &Data) -> Result<(), AllocError>
    ensures { OnOk result (text.new.items ≡ text.old.items ++ reply_text (Reply.Bytes bytes.now)) }
{
    put_str(text, "data ")?;
    put_data(text, bytes.as_slice())
}

/// Puts the names of a list.
#[tactic(auto, unfolding(crate::specs::Texts::reply_text))]
fn put_listed(text: &mut Vec<u8>, names: &NameList) -> Result<(), AllocError>
    ensures { OnOk result (text.new.items ≡ text.old.items ++ reply_text (Reply.Names names.now)) }
{
    put_str(text, "names")?;
    put_names(text, &names.names)
}

/// Puts a reply behind a text.
#[tactic(auto, unfolding(crate::specs::Texts::reply_text))]
pub(crate) fn put_reply(text: &mut Vec<u8>, reply: &Reply) -> Result<(), AllocError>
    ensures { OnOk result (text.new.items ≡ text.old.items ++ reply_text reply.now) }
{
    match reply {
        Reply::Ok => put_str(text, "ok"),
        Reply::Fd(number) => put_number(text, "fd ", u64::from(*number)),
        Reply::Count(count) => put_number(text, "count ", *count),
        Reply::Offset(offset) => put_number(text, "offset ", *offset),
        Reply::Bytes(bytes) => put_read(text, bytes),
        Reply::Stat(stat) => put_stat(text, *stat),
        Reply::Names(names) => put_listed(text, names),
        Reply::Error(errno) => put_str(text, errno_word(*errno)),
    }
}

/// Puts what a call needed and what was left, where it says so.
pub(crate) fn put_room(text: &mut Vec<u8>, room: Option<Room>) -> Result<(), AllocError>
    ensures { OnOk result (text.new.items ≡ text.old.items ++ room_text room) }
{
    match room {
        Some(Room { what, need, room }) => {
            put_str(text, " ")?;
            put_str(text, what_word(what))?;
            put_number(text, " ", need)?;
            put_number(text, " ", room)
        }
        None => Ok(()),
    }
}
