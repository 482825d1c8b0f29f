//! The command `mkfs`: a file is replaced by a fresh image, and then the room that it has is told.
ghost use Rattle.std.specs.Prelude.{◌≡◌, IfOk};
ghost use Rattle.outside.specs.Outside.{Rose};
ghost use Rattle.command_line.specs.Command as commands;
ghost use Rattle.split_top.specs.Images.{blocks_text, IsFreshImage};
ghost use Rattle.split_top.specs.Jobs.{IsAnswer};

use crate::jobs::put_output;
use command_line::{Geometry, Status};
use k_split::mkfs;
use outside::{FileFault, Files, Sink};
use std::alloc::{AllocError, Global};

/// The bytes of a fresh image.
pub(crate) fn fresh_bytes(alloc: Global, geometry: &Geometry) -> Result<Vec<u8>, AllocError>
    ensures { IfOk result (λ bytes. IsFreshImage geometry.now bytes.items) }
{
    mkfs(alloc, geometry)
}

/// The line that says how much room an image has.
fn blocks_text(alloc: Global, geometry: &Geometry) -> Result<Vec<u8>, AllocError>
    ensures { IfOk result (λ text. text.items ≡ blocks_text geometry.now) }
{
    let blocks = geometry.data_blocks();
    let text = format!(in alloc; "{blocks} data blocks\n")?;
    Ok(text.into_bytes())
}

/// Replaces the file of this name by a fresh image, and puts the line. Both are made before the file is replaced.
pub(crate) fn make_image<F: Files, K: Sink>(
    alloc: Global,
    name: &str,
    geometry: &Geometry,
    files: &mut F,
    out: &mut K,
) -> Status
    ensures { IsAnswer (commands.Mkfs name.now geometry.now) (F.told files.old) (F.told files.new) (K.told out.old) (K.told out.new) (Rose (F.misses files.old) (F.misses files.new)) (Rose (F.faults files.old) (F.faults files.new)) (Rose (K.faults out.old) (K.faults out.new)) result }
{
    let Ok(bytes) = fresh_bytes(alloc, geometry) else {
        return Status::NoMemory;
    };
    let Ok(line) = blocks_text(alloc, geometry) else {
        return Status::NoMemory;
    };
    match files.replace(name, &bytes) {
        Ok(()) => put_output(out, &line),
        Err(FileFault::NoMemory) => Status::NoMemory,
        Err(FileFault::Missing | FileFault::Failed) => Status::WriteFault,
    }
}
