//! The image that a command names, and the tree that it shows.
ghost use Rattle.std.specs.Prelude.{◌≡◌, ◌≤◌, List, ℕ, Err, IfErr, IfOk};
ghost use Rattle.outside.specs.Outside.{IsAbsent, Rose};
ghost use Rattle.command_line.specs.Command as commands;
ghost use Rattle.command_line.specs.Seen.{seen_image};
ghost use Rattle.command_line.specs.image_layout.Numbers.{default_numbers};
ghost use Rattle.split_top.specs.Images.{AreOfImage, IsFreshImage};
ghost use Rattle.split_top.specs.Jobs.{IsUnread};
ghost use Rattle.split_top.specs.Top.{IsStored};

use crate::jobs::read_file;
use crate::making::fresh_bytes;
use command_line::{Geometry, Image, Status};
use outside::Files;
use std::alloc::Global;

/// The bytes of the fresh default image.
fn default_bytes(alloc: Global) -> Result<Vec<u8>, Status>
    ensures bytes { IfOk result (λ bytes. IsFreshImage default_numbers bytes.items) }
    ensures memory { IfErr result (λ status. status ≡ Status.NoMemory) }
{
    match fresh_bytes(alloc, &Geometry::default_image()) {
        Ok(bytes) => Ok(bytes),
        Err(_) => Err(Status::NoMemory),
    }
}

/// Reads the image whole.
pub(crate) fn read_image<F: Files>(
    alloc: Global,
    image: &Image<'_>,
    files: &mut F,
) -> Result<Vec<u8>, Status>
    ensures bytes { IfOk result (λ bytes. AreOfImage (F.told files.old) (seen_image image.now) bytes.items) }
    ensures told { F.told files.new ≡ F.told files.old }
    ensures misses { F.misses files.old ≤ F.misses files.new }
    ensures faults { F.faults files.old ≤ F.faults files.new }
    ensures kind { IfErr result IsUnread }
    ensures missing { (found : List ℕ) → result ≡ Err (Status.NoSuchFile found) → (seen_image image.now ≡ commands.Stored found) × IsAbsent (F.told files.old) found × Rose (F.misses files.old) (F.misses files.new) }
    ensures failed { result ≡ Err Status.ReadFault → IsStored (seen_image image.now)
        × Rose (F.faults files.old) (F.faults files.new) }
{
    match image {
        Image::Fresh => default_bytes(alloc),
        Image::Stored(name) => read_file(alloc, files, name.as_str()),
    }
}
