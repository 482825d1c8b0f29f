//! The table of the sizes of all files.
ghost use Rattle.std.specs.Prelude.{◌≡◌, ◌≤◌, IfOk};
ghost use Rattle.world_view_laws.specs.eof_laws.layout_model.block_counts.declared.TheConstants.{LONGEST_FILE};
ghost use Rattle.world_view_laws.specs.eof_laws.image_model.Volume.{inode};
ghost use Rattle.log_replay.specs.Sheds.{IsAtRest};
ghost use Rattle.round_laws.specs.Sizes.{HasSizesOf};

use std::alloc::{AllocError, Global};
use world_view_laws::{FileTable, KSplit};

// The size of an inode; 0 of a free one.
fn size_at(k: &KSplit, ino: u32) -> u64
    requires { IsAtRest k.now }
    ensures size { result ≡ (inode k.now.volume ino).size }
    ensures small { result ≤ LONGEST_FILE }
{
    match k.node(ino) {
        Some(node) => node.size,
        None => 0,
    }
}

/// The table of the sizes of all inodes, of which nothing is staged.
///
/// # Errors
///
/// Out of memory.
pub fn table_of(alloc: Global, k: &KSplit) -> Result<FileTable, AllocError>
    requires { IsAtRest k.now }
    ensures { IfOk result (HasSizesOf k.now.volume) }
{
    let count = k.geometry().inodes;
    let mut table = FileTable::new(alloc, count)?;
    for ino in 0..count {
        table.resize(ino, size_at(k, ino));
    }
    Ok(table)
}
