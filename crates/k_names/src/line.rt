//! A name line as 64 bytes, and back.
ghost use Rattle.std.specs.Prelude.{◌≡◌, ◌<◌, ◌≤◌, ℕ, List, length, take, drop, slice_index, true, IfOk};
ghost use Rattle.std.specs.List.{list_all};
ghost use Rattle.layout_model.specs.Lines.{NameRow, FreeName, Named, line_name_bytes, is_name_byte, is_dots, is_name, encode_name, is_name_row, decode_name};
ghost use Rattle.layout_model.specs.NameLaws.{FitsName, IsNameLine};
ghost use Rattle.layout_model.specs.Fields.{zeros};
ghost use Rattle.k_names.specs.Decoding.{slot_of};

use image_layout::{put_u32, u32_at};
use posix_types::Name;
use std::alloc::{AllocError, Global};
use std::marker::Model;

/// The longest name of a name line, in bytes.
pub const LONGEST_NAME: usize = 48;

/// A name of a directory: the inode of the directory, the inode that the name stands for, and the
/// name.
#[derive(Debug, Drop)]
pub struct NameLine {
    pub parent: u32,
    pub child: u32,
    pub name: Name,
}

impl Model for NameLine {
    ghost use Rattle.layout_model.specs.Lines.{NameRow};

    ghost Value = { NameRow };

    ghost view = { λ line. record {
      parent = line.parent;
      child = line.child;
      name = line.name;
    } };
}

/// What a name line stands for.
#[derive(Debug, Drop)]
pub enum Decoded {
    /// No name.
    Free,
    Line(NameLine),
    /// The bytes are no name line.
    Bad,
}

// A printable byte that is not the slash.
fn is_name_byte(byte: u8) -> bool
    ensures { result ≡ is_name_byte byte }
{
    (33..=126).contains(&byte) && byte != b'/'
}

fn has_name_bytes(name: &[u8]) -> bool
    ensures { result ≡ list_all is_name_byte name.now }
{
    name.iter().all(|byte| is_name_byte(*byte))
}

// One of the two names that every directory has by itself.
fn is_dots(name: &[u8]) -> bool
    ensures { result ≡ is_dots name.now }
{
    name == b".".as_slice() || name == b"..".as_slice()
}

// Whether a line may hold the name: 1 to 48 printable bytes other than the slash, neither `.` nor
// `..`.
fn is_name(name: &[u8]) -> bool
    ensures { result ≡ is_name name.now }
{
    has_name_bytes(name) && 1 <= name.len() && name.len() <= LONGEST_NAME && !is_dots(name)
}

// The name's bytes in a line: as many as byte 8 says, or fewer where the line ends before.
fn name_at(line: &[u8; 64]) -> &[u8]
    ensures { result.now ≡ take (slice_index line.now 8) (drop 16 line.now) }
{
    let end = (16 + line[8] as usize).min(64);
    &line[16..end]
}

// The line of a name that is given in parts.
fn spelled(parent: u32, child: u32, name: &[u8]) -> [u8; 64]
    requires { length name.now ≤ line_name_bytes }
    ensures line { result
        ≡ encode_name (record { parent = parent; child = child; name = name.now }) }
    ensures fits { FitsName (record { parent = parent; child = child; name = name.now }) }
{
    let mut line = [0; 64];
    put_u32(&mut line, 0, parent);
    put_u32(&mut line, 4, child);
    line[8] = name.len() as u8;
    line[16..16 + name.len()].copy_from_slice(name);
    line
}

/// The line that stands for the name, which is read as that name where a line may hold it.
pub fn encode_name(line: &NameLine) -> [u8; 64]
    requires { length line.now.name ≤ line_name_bytes }
    ensures line { result ≡ encode_name line.now }
    ensures read { is_name_row line.now ≡ true → decode_name result ≡ Named line.now }
    ensures size { length result ≡ 64 }
    ensures small { (k : ℕ) → slice_index result k < 256 }
{
    spelled(line.parent, line.child, &line.name.bytes)
}

/// What the line stands for: no name exactly where it is all zeros, a name exactly where it is that
/// name's line.
#[tactic(auto, unfolding(layout_model::specs::Lines::decode_name))]
pub fn decode_name(alloc: Global, bytes: &[u8; 64]) -> Result<Decoded, AllocError>
    ensures { IfOk result (λ d. slot_of d ≡ decode_name bytes.now) }
{
    if *bytes == [0; 64] {
        return Ok(Decoded::Free);
    }
    let parent = u32_at(bytes, 0);
    let child = u32_at(bytes, 4);
    let name = name_at(bytes);
    if child == 0 || !is_name(name) || *bytes != spelled(parent, child, name) {
        return Ok(Decoded::Bad);
    }
    let name = Name {
        bytes: Vec::from_slice(alloc, name)?,
    };
    Ok(Decoded::Line(NameLine {
        parent,
        child,
        name,
    }))
}

/// What is spelled is read, what is read is spelled so, and what is read as free is all zeros.
pub fn name_lines_are_exact()
    ensures read { (r : NameRow) → FitsName r → is_name_row r ≡ true
        → decode_name (encode_name r) ≡ Named r }
    ensures spelled { (bytes : List ℕ) (r : NameRow)
        → decode_name bytes ≡ Named r → IsNameLine bytes r }
    ensures free { (bytes : List ℕ) → decode_name bytes ≡ FreeName → bytes ≡ zeros 64 }
{}
