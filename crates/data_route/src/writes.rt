//! The plan of a write.
ghost use Rattle.std.specs.Prelude.{◌≡◌, ◌+◌, ◌<◌, ◌≤◌};
ghost use Rattle.block_counts.specs.declared.TheConstants.{LONGEST_FILE};
ghost use Rattle.data_route.specs.Writes.{cleans, first_staged, in_place_by, plan_of, staged_by, stages};

use block_counts::{BLOCK, blocks_for};
use posix_types::Mode;

/// What a write does.
#[derive(Clone, Copy, Debug, PartialEq, Eq)]
pub struct WritePlan {
    /// Whether the bytes behind the old end, in its block, are set to zero first.
    pub clean_tail: bool,
    /// The bytes that are written in place: from the first on, and before the second.
    pub in_place: Option<(u64, u64)>,
    /// The file blocks that are staged: the first one, and how many.
    pub staged: Option<(u32, u32)>,
    /// The length of the file afterwards, in bytes.
    pub new_size: u64,
}

/// The plan of a write of `len` bytes from `offset` on, to a file of `size` bytes. The file is
/// neither before nor afterwards longer than 16,777,216 bytes. A write of no byte does nothing.
pub fn plan_write(mode: Mode, size: u64, offset: u64, len: u64) -> WritePlan
    requires file { size ≤ LONGEST_FILE }
    requires end { offset + len ≤ LONGEST_FILE }
    ensures { result ≡ plan_of mode size offset len }
{
    if len == 0 {
        return WritePlan {
            clean_tail: false,
            in_place: None,
            staged: None,
            new_size: size,
        };
    }
    let end = offset + len;
    WritePlan {
        clean_tail: is_cleaned(size, offset),
        in_place: in_place(mode, size, offset, end),
        staged: staged(mode, size, offset, end),
        new_size: size.max(end),
    }
}

// Whether a write from here on begins in a later block than the last byte, which does not end its
// block.
fn is_cleaned(size: u64, offset: u64) -> bool
    ensures { result ≡ cleans size offset }
{
    size % BLOCK != 0 && size / BLOCK < offset / BLOCK
}

// Whether a write up to here stages blocks.
fn is_staged(mode: Mode, size: u64, end: u64) -> bool
    ensures { result ≡ stages mode size end }
{
    match mode {
        Mode::Strict => true,
        Mode::Sync | Mode::Posix => size < end,
    }
}

// The first block that is staged, if one is.
fn first_block(mode: Mode, size: u64, offset: u64) -> u64
    requires file { size ≤ LONGEST_FILE }
    requires start { offset ≤ LONGEST_FILE }
    ensures block { result ≡ first_staged mode size offset }
    ensures small { result ≤ 4096 }
{
    match mode {
        Mode::Strict => offset / BLOCK,
        Mode::Sync | Mode::Posix => (size / BLOCK).max(offset / BLOCK),
    }
}

// The blocks that are staged.
fn staged(mode: Mode, size: u64, offset: u64, end: u64) -> Option<(u32, u32)>
    requires file { size ≤ LONGEST_FILE }
    requires start { offset < end }
    requires end { end ≤ LONGEST_FILE }
    ensures { result ≡ staged_by mode size offset end }
{
    if !is_staged(mode, size, end) {
        return None;
    }
    let first = first_block(mode, size, offset);
    Some((first as u32, (blocks_for(end).saturating_sub(first)) as u32))
}

// The bytes that are written in place.
fn in_place(mode: Mode, size: u64, offset: u64, end: u64) -> Option<(u64, u64)>
    requires file { size ≤ LONGEST_FILE }
    requires start { offset < end }
    requires end { end ≤ LONGEST_FILE }
    ensures { result ≡ in_place_by mode size offset end }
{
    let until = if is_staged(mode, size, end) {
        BLOCK * first_block(mode, size, offset)
    } else {
        end
    };
    if offset < until {
        Some((offset, until))
    } else {
        None
    }
}
