//! The rows, tried from the top.
ghost use Rattle.std.specs.Prelude.{◌≡◌, ◌+◌, ◌-◌, ◌≤◌, IfNone};
ghost use Rattle.block_counts.specs.Counts.{reserve_for};
ghost use Rattle.write_plan.specs.Rows.{blocks_row_by, truncate_row_by, write_row_by};

use block_counts::reserve_for;
use posix_tables::bytes::{LONGEST_FILE, LONGEST_WRITE, is_too_far};
use posix_tables::outcomes::{answer, no_space, refused};
use posix_tables::room::{growth, write_need};
use posix_types::{Errno, Mode, Outcome, Reply, What};

/// How many blocks are left, in an image of so many data blocks of which files hold so many.
pub fn room_by(data_blocks: u32, held: u64) -> u64
    ensures { result ≡ data_blocks - reserve_for data_blocks - held }
{
    u64::from(data_blocks)
        .saturating_sub(u64::from(reserve_for(data_blocks)))
        .saturating_sub(held)
}

// The row that fits where more blocks are needed than are left.
fn blocks_row(need: u64, room: u64) -> Option<Outcome>
    ensures { result ≡ blocks_row_by need room }
{
    if room < need {
        no_space(What::Blocks, need, room)
    } else {
        None
    }
}

/// The outcome of a write of `len` bytes from `start` on that a row refuses, or that has no bytes; None
/// where it is done. `may` says whether the handle may write; the file has `size` bytes, 16,777,216 at
/// most, and `room` blocks are left.
pub fn write_row(
    mode: Mode,
    may: bool,
    start: u64,
    len: usize,
    size: u64,
    room: u64,
) -> Option<Outcome>
    requires { size ≤ LONGEST_FILE }
    ensures row { result ≡ write_row_by mode may start len size room }
    ensures fits { IfNone result (start + len ≤ LONGEST_FILE) }
{
    if !may {
        return refused(Errno::EBADF);
    }
    if LONGEST_WRITE < len {
        return refused(Errno::EINVAL);
    }
    if len == 0 {
        return Some(answer(Reply::Count(0)));
    }
    if is_too_far(start, len as u64) {
        return refused(Errno::EFBIG);
    }
    blocks_row(write_need(mode, size, start, start + len as u64), room)
}

/// The outcome of a `truncate` to `len` bytes that a row refuses; None where it is done.
pub fn truncate_row(may: bool, len: u64, size: u64, room: u64) -> Option<Outcome>
    ensures row { result ≡ truncate_row_by may len size room }
    ensures fits { IfNone result (len ≤ LONGEST_FILE) }
{
    if !may {
        return refused(Errno::EBADF);
    }
    if LONGEST_FILE < len {
        return refused(Errno::EFBIG);
    }
    if len <= size {
        return None;
    }
    blocks_row(growth(size, len), room)
}
