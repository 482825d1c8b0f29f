//! The words of a write.
ghost use Rattle.std.specs.Prelude.{◌≡◌, ◌≤◌, ◌<◌, ◌+◌, ◌*◌, ◌/◌, length, IfOk};
ghost use Rattle.block_counts.specs.declared.TheConstants.{LONGEST_FILE};
ghost use Rattle.live_model.specs.image_model.Volume.{extents};
ghost use Rattle.live_model.specs.file_reads.Reads.{FileCanBeRead};
ghost use Rattle.file_table.specs.Files.{runs_in, size_in};
ghost use Rattle.live_model.specs.map_collection.Kept.{Agrees, KeepsOthers};
ghost use Rattle.live_model.specs.write_jobs.Contents.{SpellBytes};
ghost use Rattle.write_plan.specs.Words.{staged_in};

use crate::drafts::{Collection, FileTable, KSplit, StagedBytes, Target, read_bytes};
use posix_types::Data;
use std::alloc::{AllocError, Global};

/// What `count` blocks are to hold, from that of the target's first byte on: what the file has there, with the new bytes
/// over it, and zeros behind both. The new bytes lie in these blocks, and are shared, not copied; of the file only what
/// lies beside them there is read. No word is made.
pub fn words_of_write(
    alloc: Global,
    k: &KSplit,
    files: &FileTable,
    collection: &mut Collection,
    target: Target,
    count: u32,
    new: &Data,
) -> Result<StagedBytes, AllocError>
    requires there { target.ino < length k.now.volume.inodes }
    requires below { target.ino < length files.now.sizes }
    requires size { target.size ≡ size_in files.now target.ino }
    requires start { target.start ≤ LONGEST_FILE }
    requires few { count ≤ 33 }
    requires fits { target.start + length new.now ≤ 4096 * (target.start / 4096 + count) }
    requires readable { FileCanBeRead k.now.volume k.now.cells (runs_in files.now target.ino)
        target.ino }
    requires agrees { Agrees collection.old target.ino (extents k.now.volume target.ino) }
    ensures words { IfOk result (λ words. SpellBytes words
        (staged_in k.now files.now target.ino target.start count new.now)) }
    ensures agrees { Agrees collection.new target.ino (extents k.now.volume target.ino) }
    ensures others { KeepsOthers target.ino collection.old collection.new }
{
    let size = files.size(target.ino);
    let overlay = files.overlay(target.ino);
    let at = target.start % 4096;
    let len = new.len() as u64;
    let end = target.start + len;
    let rest = 4096 * u64::from(count) - at - len;
    let front = read_bytes(
        alloc,
        k,
        target.ino,
        size,
        target.start - at,
        at,
        overlay,
        collection,
    )?;
    let back = read_bytes(alloc, k, target.ino, size, end, rest, overlay, collection)?;
    let new = new.clone()?;
    Ok(StagedBytes::of(front, at as usize, new, back, count))
}
