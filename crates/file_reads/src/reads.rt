//! A read, piece by piece.
ghost use Rattle.std.specs.Prelude.{◌≡◌, ◌+◌, ◌<◌, ◌≤◌, ◌++◌, ℕ, length, replicate, slice_index, slice_range, IfOk, OnOk};
ghost use Rattle.data_route.specs.block_counts.declared.TheConstants.{LONGEST_FILE};
ghost use Rattle.std.specs.Option.{ForSome};
ghost use Rattle.k_split.specs.image_model.Content.{byte_in};
ghost use Rattle.k_split.specs.image_model.Volume.{extents};
ghost use Rattle.k_split.specs.pm_model.Images.{words_of};
ghost use Rattle.data_route.specs.Reads.{read_len, FitsBlock};
ghost use Rattle.data_route.specs.map_collection.Kept.{Agrees, KeepsOthers};
ghost use Rattle.file_reads.specs.Reads.{block_of, bytes_in, bytes_of_piece, FileCanBeRead, IsReadable, SourceCanBeRead};

use data_route::{Collection, Piece, Source, plan_read};
use file_overlay::Overlay;
use k_split::KSplit;
use std::alloc::{AllocError, Global};

// The disk block of what has a file block.
fn block_of(k: &KSplit, source: Source) -> Option<u32>
    requires { SourceCanBeRead k.now.volume k.now.cells source }
    ensures { result ≡ block_of k.now.volume source }
{
    match source {
        Source::Disk(block) => Some(block),
        Source::Staged(staging, block) => match k.map(staging) {
            Some(map) => map.lookup(block),
            None => unreachable!(),
        },
        Source::Zero => None,
    }
}

// Reads a disk block into a buffer, zeros of a hole.
fn read_whole(k: &KSplit, block: Option<u32>, buffer: &mut [u8; 4096])
    requires { ForSome block (IsReadable k.now.cells) }
    ensures { (i : ℕ) → i < 4096
        → slice_index buffer.new i ≡ byte_in (words_of k.now.cells) block i }
{
    match block {
        Some(block) => k.read_block(block, buffer),
        None => *buffer = [0; 4096],
    }
}

// Puts the bytes of a piece behind those before it. The buffer for its block is made here, so that a
// read of nothing sets none to zero.
fn push_piece(bytes: &mut Vec<u8>, k: &KSplit, piece: Piece) -> Result<(), AllocError>
    requires fits { FitsBlock piece }
    requires readable { SourceCanBeRead k.now.volume k.now.cells piece.source }
    ensures { OnOk result (bytes.new.items ≡ bytes.old.items
        ++ bytes_of_piece k.now.volume (words_of k.now.cells) piece) }
{
    let mut buffer = [0; 4096];
    read_whole(k, block_of(k, piece.source), &mut buffer);
    let from = piece.at as usize;
    let to = from + piece.len as usize;
    bytes.extend_from_slice(&buffer[from..to])?;
    Ok(())
}

/// The bytes of a file from `offset` on, `len` of them or those up to its end, where the file has
/// `size` bytes, at most 16,777,216, and `overlay` has its staged runs. What is kept of the inode
/// agrees with its map, afterwards too. Nothing but out of memory stops it.
pub fn read_bytes(
    alloc: Global,
    k: &KSplit,
    ino: u32,
    size: u64,
    offset: u64,
    len: u64,
    overlay: &Overlay,
    collection: &mut Collection,
) -> Result<Vec<u8>, AllocError>
    requires there { ino < length k.now.volume.inodes }
    requires small { size ≤ LONGEST_FILE }
    requires readable { FileCanBeRead k.now.volume k.now.cells overlay.now.runs ino }
    requires agrees { Agrees collection.old ino (extents k.now.volume ino) }
    ensures bytes { IfOk result (λ bytes. bytes.items
        ≡ bytes_in k.now.volume (words_of k.now.cells) overlay.now.runs ino offset
        (read_len size offset len)) }
    ensures agrees { Agrees collection.new ino (extents k.now.volume ino) }
    ensures others { KeepsOthers ino collection.old collection.new }
{
    let Some(map) = k.map(ino) else {
        unreachable!();
    };
    let pieces = plan_read(alloc, ino, size, offset, len, overlay, collection, map)?;
    let mut bytes = Vec::with_capacity(alloc, len.min(size.saturating_sub(offset)) as usize)?;
    for piece in &pieces {
        push_piece(&mut bytes, k, *piece)?;
    }
    Ok(bytes)
}
