//! Words over the bytes of a file.
ghost use Rattle.std.specs.Prelude.{◌≡◌, ◌+◌, ◌<◌, ◌^◌, IfOk, drop, length, nat_lt, take};
ghost use Rattle.posix_tables.specs.Bytes.{bytes_from, moved_place, overwritten, resized, within_limit};

pub use block_counts::{LONGEST_FILE, LONGEST_WRITE};
use posix_types::Data;
use std::alloc::{AllocError, Global};

/// The furthest offset that a seek may leave, in bytes.
pub const FURTHEST_OFFSET: u64 = 999_999_999_999_999_999;

/// The bytes from a place on.
fn tail(bytes: &[u8], place: u64) -> &[u8]
    ensures { result.now ≡ drop place bytes.now }
{
    if place < bytes.len() as u64 {
        &bytes[place as usize..]
    } else {
        &[]
    }
}

/// The first bytes, at most so many.
fn head(bytes: &[u8], count: u64) -> &[u8]
    ensures { result.now ≡ take count bytes.now }
{
    if count < bytes.len() as u64 {
        &bytes[..count as usize]
    } else {
        bytes
    }
}

/// At most `count` bytes from a place on, up to the end.
pub fn bytes_from(alloc: Global, bytes: &[u8], place: u64, count: u64) -> Result<Data, AllocError>
    ensures { IfOk result (λ read. read ≡ bytes_from bytes.now place count) }
{
    let bytes = Vec::from_slice(alloc, head(tail(bytes, place), count))?;
    Data::of(bytes)
}

/// The bytes cut to a length, or lengthened with zeros.
pub fn resized(alloc: Global, bytes: &[u8], length: u64) -> Result<Data, AllocError>
    ensures { IfOk result (λ made. made ≡ resized bytes.now length) }
{
    let mut bytes = Vec::from_slice(alloc, bytes)?;
    bytes.resize(length as usize, 0)?;
    Data::of(bytes)
}

/// The bytes with others from a start on, a gap being zeros.
pub fn overwritten(alloc: Global, old: &[u8], start: u64, new: &[u8]) -> Result<Data, AllocError>
    requires { start + length new.now < 2 ^ 64 }
    ensures { IfOk result (λ made. made ≡ overwritten old.now start new.now) }
{
    let mut bytes = Vec::from_slice(alloc, old)?;
    bytes.resize(start as usize, 0)?;
    bytes.extend_from_slice(new)?;
    bytes.extend_from_slice(tail(old, start + new.len() as u64))?;
    Data::of(bytes)
}

/// Whether a start and a length lead past the longest file.
pub fn is_too_far(start: u64, length: u64) -> bool
    ensures { result ≡ nat_lt LONGEST_FILE (start + length) }
{
    LONGEST_FILE < start || LONGEST_FILE - start < length
}

fn within_limit(place: u64) -> Option<u64>
    ensures { result ≡ within_limit place }
{
    if FURTHEST_OFFSET < place {
        None
    } else {
        Some(place)
    }
}

/// A place with a number added, if that is neither below 0 nor above the furthest offset.
pub fn moved_place(place: u64, by: i64) -> Option<u64>
    ensures { result ≡ moved_place place by }
{
    if by >= 0 {
        let by = by as u64;
        if FURTHEST_OFFSET < place {
            return None;
        }
        return within_limit(place + by);
    }
    let less = by.unsigned_abs();
    if place < less {
        return None;
    }
    within_limit(place - less)
}
