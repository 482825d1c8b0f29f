//! The pieces of a read.
ghost use Rattle.std.specs.Prelude.{◌≡◌, ◌+◌, ◌<◌, ◌≤◌, IfOk};
ghost use Rattle.block_counts.specs.declared.TheConstants.{LONGEST_FILE};
ghost use Rattle.map_collection.specs.Kept.{Agrees, KeepsOthers};
ghost use Rattle.data_route.specs.Reads.{places_from, places_in, read_len, source_of, FitsBlock, IsReadPlan};

use block_counts::BLOCK;
use extent_map::ExtentMap;
use file_overlay::Overlay;
use map_collection::Collection;
use std::alloc::{AllocError, Global};

/// What has a block of a file: a block of the disk, a block of a staging file (by its inode), or
/// nothing, and then the block reads as zeros.
#[derive(Clone, Copy)]
pub enum Source {
    Disk(u32),
    Staged(u32, u32),
    Zero,
}

/// Bytes of one block, one after the other.
#[derive(Clone, Copy)]
pub struct Piece {
    /// What has the block.
    pub source: Source,
    /// The place of the first byte in the block.
    pub at: u32,
    /// The number of bytes, at least one.
    pub len: u32,
}

/// Where the bytes of a read lie, up to `len` of them from `offset` on, in a file of `size` bytes and
/// at most 16,777,216. What is kept of the inode agrees with the map, afterwards too. Where memory is
/// short, the collection may keep answers that it took from the map.
pub fn plan_read(
    alloc: Global,
    ino: u32,
    size: u64,
    offset: u64,
    len: u64,
    overlay: &Overlay,
    collection: &mut Collection,
    map: &ExtentMap,
) -> Result<Vec<Piece>, AllocError>
    requires file { size ≤ LONGEST_FILE }
    requires agrees { Agrees collection.old ino map.now }
    ensures plan { IfOk result (λ pieces.
        IsReadPlan overlay.now.runs map.now size offset len pieces.items) }
    ensures agrees { Agrees collection.new ino map.now }
    ensures others { KeepsOthers ino collection.old collection.new }
{
    let mut pieces = Vec::new(alloc);
    let mut at = offset;
    let mut left = bytes_read(size, offset, len);
    while left > 0 {
        let piece = piece_at(ino, at, left, overlay, collection, map)?;
        pieces.push(piece)?;
        at += piece.len as u64;
        left -= piece.len as u64;
    }
    Ok(pieces)
}

// How many bytes a read has.
fn bytes_read(size: u64, offset: u64, len: u64) -> u64
    ensures count { result ≡ read_len size offset len }
    ensures within { 0 < result → offset + result ≤ size }
{
    len.min(size.saturating_sub(offset))
}

// What has a block of a file.
fn source_at(
    ino: u32,
    block: u32,
    overlay: &Overlay,
    collection: &mut Collection,
    map: &ExtentMap,
) -> Result<Source, AllocError>
    requires { Agrees collection.old ino map.now }
    ensures source { IfOk result (λ source.
        source ≡ source_of overlay.now.runs map.now block) }
    ensures agrees { Agrees collection.new ino map.now }
    ensures others { KeepsOthers ino collection.old collection.new }
{
    if let Some((staging, staged)) = overlay.find(block) {
        return Ok(Source::Staged(staging, staged));
    }
    match collection.lookup(ino, block, map)? {
        Some(disk) => Ok(Source::Disk(disk)),
        None => Ok(Source::Zero),
    }
}

// The first piece of what is left, which ends in the file.
fn piece_at(
    ino: u32,
    at: u64,
    left: u64,
    overlay: &Overlay,
    collection: &mut Collection,
    map: &ExtentMap,
) -> Result<Piece, AllocError>
    requires some { 0 < left }
    requires file { at + left ≤ LONGEST_FILE }
    requires agrees { Agrees collection.old ino map.now }
    ensures bytes { IfOk result (λ piece. places_in piece
        ≡ places_from overlay.now.runs map.now at piece.len) }
    ensures fits { IfOk result (λ piece. FitsBlock piece) }
    ensures few { IfOk result (λ piece. piece.len ≤ left) }
    ensures agrees { Agrees collection.new ino map.now }
    ensures others { KeepsOthers ino collection.old collection.new }
{
    let start = at % BLOCK;
    let source = source_at(ino, (at / BLOCK) as u32, overlay, collection, map)?;
    Ok(Piece {
        source,
        at: start as u32,
        len: left.min(BLOCK - start) as u32,
    })
}
