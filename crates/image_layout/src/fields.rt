//! Numbers in a line of an image.
//!
//! A line is 64 bytes; its fields are little-endian numbers of two, four or eight bytes at fixed
//! places. The codecs of the layers above read and write each field by these functions, by the
//! place of its first byte.
//!
//! A reader answers the number that stands in these bytes (`u16_at` and its kin, the definitions by
//! which the spelling of each kind of line is stated); a writer changes these bytes and no other
//! (`put_at`).

ghost use Rattle.std.specs.Prelude.{◌≡◌, ◌+◌, ◌≤◌};
ghost use Rattle.std.specs.Int.{to_le_bytes, w16, w32, w64};
ghost use Rattle.layout_model.specs.Fields.{u16_at, u32_at, u64_at};
ghost use Rattle.image_layout.specs.Puts.{put_at};

/// The number in the two bytes from byte `at` on.
pub fn u16_at(line: &[u8; 64], at: usize) -> u16
    requires { at + 2 ≤ 64 }
    ensures { result ≡ u16_at line.now at }
{
    u16::from_le_bytes([line[at], line[at + 1]])
}

/// The number in the four bytes from byte `at` on.
pub fn u32_at(line: &[u8; 64], at: usize) -> u32
    requires { at + 4 ≤ 64 }
    ensures { result ≡ u32_at line.now at }
{
    u32::from_le_bytes([line[at], line[at + 1], line[at + 2], line[at + 3]])
}

/// The number in the eight bytes from byte `at` on.
pub fn u64_at(line: &[u8; 64], at: usize) -> u64
    requires { at + 8 ≤ 64 }
    ensures { result ≡ u64_at line.now at }
{
    u64::from_le_bytes([
        line[at],
        line[at + 1],
        line[at + 2],
        line[at + 3],
        line[at + 4],
        line[at + 5],
        line[at + 6],
        line[at + 7],
    ])
}

/// Writes a number into the two bytes from byte `at` on.
pub fn put_u16(line: &mut [u8; 64], at: usize, number: u16)
    requires { at + 2 ≤ 64 }
    ensures { line.new ≡ put_at line.old at (to_le_bytes w16 number) }
{
    line[at..at + 2].copy_from_slice(&number.to_le_bytes());
}

/// Writes a number into the four bytes from byte `at` on.
pub fn put_u32(line: &mut [u8; 64], at: usize, number: u32)
    requires { at + 4 ≤ 64 }
    ensures { line.new ≡ put_at line.old at (to_le_bytes w32 number) }
{
    line[at..at + 4].copy_from_slice(&number.to_le_bytes());
}

/// Writes a number into the eight bytes from byte `at` on.
pub fn put_u64(line: &mut [u8; 64], at: usize, number: u64)
    requires { at + 8 ≤ 64 }
    ensures { line.new ≡ put_at line.old at (to_le_bytes w64 number) }
{
    line[at..at + 8].copy_from_slice(&number.to_le_bytes());
}
