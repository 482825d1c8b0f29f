//! What files read: by their maps, and by the runs whose entries are live.
ghost use Rattle.k_map_tests.specs.Calls.{IsFresh};

use crate::publishing::Three;
use file_overlay::Run;
use k_map_tests::block_bytes;
use k_split::KSplit;
use test_kit::{RowError, Text};

// How many blocks of a file are looked at.
const BLOCKS: u32 = 8;

// The order of the last entry that is carried out.
pub(crate) fn applied(k: &KSplit, ino: u32) -> u64 {
    match k.node(ino) {
        Some(node) => node.applied,
        None => 0,
    }
}

// The place in a staging file that a live run gives a file block.
fn staged_in(run: &Run, applied: u64, block: u32) -> Option<(u32, u32)> {
    if applied < run.order && run.file_block <= block && block - run.file_block < run.count {
        let place = run.staging_block.saturating_add(block - run.file_block);
        return Some((run.staging, place));
    }
    None
}

fn disk_at(k: &KSplit, ino: u32, block: u32) -> Option<u32> {
    k.map(ino)?.lookup(block)
}

// The disk block that a file block reads: of the live run of greatest order that has it, or of the map.
fn disk_of(k: &KSplit, three: &Three, block: u32) -> Option<u32> {
    let applied = applied(k, three.ino);
    let place = staged_in(&three.third, applied, block)
        .or(staged_in(&three.second, applied, block))
        .or(staged_in(&three.first, applied, block));
    match place {
        Some((staging, place)) => disk_at(k, staging, place),
        None => disk_at(k, three.ino, block),
    }
}

// The length of a file: that of the entry of greatest order where it is live.
fn size_of(k: &KSplit, three: &Three) -> u64 {
    match k.node(three.ino) {
        Some(node) => {
            if node.applied < three.third.order {
                three.size
            } else {
                node.size
            }
        }
        None => 0,
    }
}

// The bytes of a disk block, and zeros where there is none.
fn bytes_of(k: &KSplit, disk: Option<u32>) -> Result<[u8; 4096], RowError>
    requires { IsFresh k.now }
{
    match disk {
        Some(block) => block_bytes(k, block),
        None => Ok([0; 4096]),
    }
}

// Adds what blocks of a file read.
fn add_blocks(bytes: &mut Vec<u8>, k: &KSplit, three: &Three) -> Result<(), RowError>
    requires { IsFresh k.now }
{
    for block in 0..BLOCKS {
        let block = bytes_of(k, disk_of(k, three, block))?;
        bytes.extend_from_slice(&block)?;
    }
    Ok(())
}

// Adds the length of a file, in 8 bytes, and what it reads up to there.
pub(crate) fn add_content(bytes: &mut Vec<u8>, k: &KSplit, three: &Three) -> Result<(), RowError>
    requires { IsFresh k.now }
{
    let size = size_of(k, three);
    bytes.extend_from_slice(&size.to_le_bytes())?;
    let end = bytes.len().saturating_add(size as usize);
    add_blocks(bytes, k, three)?;
    bytes.truncate(end);
    Ok(())
}

// Adds the first byte of each of five blocks.
fn put_first_bytes(text: &mut Text, k: &KSplit, three: &Three) -> Result<(), RowError>
    requires { IsFresh k.now }
{
    for block in 0..5 {
        let bytes = bytes_of(k, disk_of(k, three, block))?;
        text.put(" ");
        text.put_number(u64::from(bytes[0]));
    }
    Ok(())
}

// Adds the length of a file, and the first byte of each of five blocks.
pub(crate) fn put_content(text: &mut Text, k: &KSplit, three: &Three) -> Result<(), RowError>
    requires { IsFresh k.now }
{
    text.put_number(size_of(k, three));
    text.put(" bytes, blocks of");
    put_first_bytes(text, k, three)
}
