//! Room: how many blocks files hold, and how many are left.
ghost use Rattle.std.specs.Prelude.{◌≡◌, ◌+◌, ◌-◌, ◌^◌, ◌≤◌};
ghost use Rattle.block_counts.specs.Counts.{reserve_for};
ghost use Rattle.posix_tables.specs.Room.{growth, held, staged_below, touched_below, write_need};

use crate::nodes::{Node, length_of};
use block_counts::{BLOCK, blocks_for, held_by, reserve_for};
use posix_types::Mode;

/// The data blocks that no file holds and that are not kept back.
pub fn room(data_blocks: u32, nodes: &[Node]) -> u64
    ensures { result ≡ data_blocks - reserve_for data_blocks - held nodes.now }
{
    let mut left = u64::from(data_blocks).saturating_sub(u64::from(reserve_for(data_blocks)));
    for node in nodes {
        left = left.saturating_sub(held_by(length_of(node)));
    }
    left
}

/// The blocks that a file needs that grows from one length to another.
pub fn growth(from: u64, to: u64) -> u64
    ensures value { result ≡ growth from to }
    ensures bounded { result ≤ 2 ^ 53 }
{
    held_by(to).saturating_sub(held_by(from))
}

/// The blocks of a file of so many bytes that a write from `start` up to `end` touches.
fn touched_below(bytes: u64, start: u64, end: u64) -> u64
    ensures value { result ≡ touched_below bytes start end }
    ensures bounded { result ≤ 2 ^ 52 }
{
    blocks_for(end)
        .min(blocks_for(bytes))
        .saturating_sub(start / BLOCK)
}

fn staged_below(mode: Mode, bytes: u64, start: u64, end: u64) -> u64
    ensures value { result ≡ staged_below mode bytes start end }
    ensures bounded { result ≤ 2 ^ 52 }
{
    match mode {
        Mode::Strict => touched_below(bytes, start, end),
        Mode::Sync => 0,
        Mode::Posix => 0,
    }
}

/// The blocks that a write from `start` up to `end` needs at a file of so many bytes.
pub fn write_need(mode: Mode, bytes: u64, start: u64, end: u64) -> u64
    ensures { result ≡ write_need mode bytes start end }
{
    staged_below(mode, bytes, start, end) + growth(bytes, bytes.max(end))
}
