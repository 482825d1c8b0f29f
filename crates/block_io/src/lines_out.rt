//! Lines of a device, taken out in order and put back.
//!
//! While lines are out their words are those of the `Line`s, so that others store into them, and the
//! device's are lent. The layer above may rely on this: each line has the words that the device had
//! there, and once all are back the device has theirs, without marks; no other word changes. No call
//! takes memory: the room for the lines is made beforehand.

ghost use Rattle.std.specs.Prelude.{◌≡◌, ◌<◌, ◌≤◌, ◌+◌, ◌*◌, ◌^◌, ℕ, [], true, false, length, vec_capacity};
ghost use Rattle.pm_lines.specs.pm_model.Cells.{cell, is_lent, is_single};
ghost use Rattle.block_io.specs.Overwrites.{IsInLines};
ghost use Rattle.block_io.specs.Lines.{AreFrom, LinesComeBack, LinesGoOut};

use pm_lines::{Line, Pm};

/// Takes `count` lines out, from line `first` on, counted from the start of the device. Each of their
/// words has one candidate. There is room for the lines.
pub fn take_lines(pm: &mut Pm, first: u64, count: u64, room: Vec<Line>) -> Vec<Line>
    requires small { first + count < 2 ^ 60 }
    requires in_device { 8 * (first + count) ≤ length pm.old }
    requires single { (i : ℕ) → IsInLines first count i → is_single (cell pm.old i) ≡ true }
    requires empty { room.items ≡ [] }
    requires room { count ≤ vec_capacity room }
    ensures size { length pm.new ≡ length pm.old }
    ensures count { length result.items ≡ count }
    ensures out { LinesGoOut first pm.old pm.new result.items }
{
    let mut lines = room;
    for line in first..first + count {
        lines.push_reserved(pm.take_line(line));
    }
    lines
}

/// Puts lines back that are those from line `first` on. All of them are out.
pub fn put_lines(pm: &mut Pm, first: u64, lines: Vec<Line>)
    requires small { first + length lines.items < 2 ^ 60 }
    requires places { AreFrom first lines.items }
    requires out { (i : ℕ) → IsInLines first (length lines.items) i
        → is_lent (cell pm.old i) ≡ true }
    ensures size { length pm.new ≡ length pm.old }
    ensures back { LinesComeBack first lines.items pm.old pm.new }
    ensures home { (i : ℕ) → IsInLines first (length lines.items) i
        → is_lent (cell pm.new i) ≡ false }
{
    for line in lines {
        pm.put_line(line);
    }
}

pub use crate::block_bytes::{Move, read_block, write_bytes, zero_blocks, zero_lines};
