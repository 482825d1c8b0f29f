//! Replies, and what a K-Split shows of its maps and bytes, as rows spell it.
ghost use Rattle.k_map_tests.specs.Calls.{IsFresh};

use k_map_tests::{Reply, block_bytes, map_text};
use k_split::KSplit;
use posix_types::{Room, What};
use std::alloc::Global;
use test_kit::{RowError, Text};

fn put_room(text: &mut Text, room: Room) {
    let what = match room.what {
        What::Blocks => "blocks ",
        What::Nodes => "nodes ",
        What::Names => "names ",
    };
    text.put("room ");
    text.put(what);
    text.put_number(room.need);
    text.put(" ");
    text.put_number(room.room);
}

// Adds a reply.
pub(crate) fn put_reply(text: &mut Text, reply: Reply) {
    match reply {
        Reply::Done => text.put("ok"),
        Reply::Lost => text.put("lost"),
        Reply::Unfit => text.put("unfit"),
        Reply::Room(room) => put_room(text, room),
    }
}

// Adds the map of an inode.
pub(crate) fn put_map(
    text: &mut Text,
    alloc: Global,
    k: &KSplit,
    ino: u32,
) -> Result<(), RowError> {
    text.put(&map_text(alloc, k, ino)?);
    Ok(())
}

// One byte of a file: 0 where its block is a hole.
fn byte_at(k: &KSplit, ino: u32, at: u32) -> Result<u8, RowError>
    requires { IsFresh k.now }
{
    let block = match k.map(ino) {
        Some(map) => map.lookup(at / 4096),
        None => None,
    };
    match block {
        Some(block) => Ok(block_bytes(k, block)?[(at % 4096) as usize]),
        None => Ok(0),
    }
}

// Adds bytes of a file, with a space between two.
pub(crate) fn put_bytes(
    text: &mut Text,
    k: &KSplit,
    ino: u32,
    at: u32,
    count: u32,
) -> Result<(), RowError>
    requires { IsFresh k.now }
{
    let mut gap = "";
    for place in at..at.saturating_add(count) {
        let byte = byte_at(k, ino, place)?;
        text.put(gap);
        text.put_number(u64::from(byte));
        gap = " ";
    }
    Ok(())
}
