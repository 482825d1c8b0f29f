//! The command `tree`: an image is checked and mounted, and the tree that it has is put.
ghost use Rattle.std.specs.Prelude.{List, ℕ, IfErr, IfOk};
ghost use Rattle.outside.specs.Outside.{Rose};
ghost use Rattle.command_line.specs.Command as commands;
ghost use Rattle.command_line.specs.Seen.{seen_image};
ghost use Rattle.split_top.specs.Devices.{CanMount, IsDeviceOf};
ghost use Rattle.split_top.specs.Images.{IsTreeText};
ghost use Rattle.split_top.specs.Jobs.{IsAnswer, IsUnopened};

use crate::images::read_image;
use crate::jobs::put_output;
use crate::mounting::mount_image;
use crate::opening::{Opened, open_image};
use command_line::{Image, Status};
use outside::{Files, Sink};
use report_text::tree_text;
use std::alloc::{AllocError, Global};

/// The text of the tree of an image, from its device.
fn text_of(alloc: Global, opened: Opened) -> Result<Vec<u8>, AllocError>
    requires { CanMount opened.geometry opened.pm }
    ensures { IfOk result (λ output. (bytes : List ℕ) → IsDeviceOf bytes opened.pm
        → IsTreeText bytes output.items) }
{
    let mounted = mount_image(alloc, opened.pm)?;
    tree_text(alloc, &mounted.tree)
}

/// The text of the tree of an image, or why there is none.
fn tree_of(alloc: Global, bytes: Vec<u8>) -> Result<Vec<u8>, Status>
    ensures output { IfOk result (λ output. IsTreeText bytes.items output.items) }
    ensures kind { IfErr result (IsUnopened bytes.items) }
{
    let opened = open_image(alloc, bytes)?;
    match text_of(alloc, opened) {
        Ok(output) => Ok(output),
        Err(_) => Err(Status::NoMemory),
    }
}

/// Reads the image, and puts its tree.
pub(crate) fn show<F: Files, K: Sink>(
    alloc: Global,
    image: &Image<'_>,
    files: &mut F,
    out: &mut K,
) -> Status
    ensures { IsAnswer (commands.Tree (seen_image image.now)) (F.told files.old) (F.told files.new) (K.told out.old) (K.told out.new) (Rose (F.misses files.old) (F.misses files.new)) (Rose (F.faults files.old) (F.faults files.new)) (Rose (K.faults out.old) (K.faults out.new)) result }
{
    let bytes = match read_image(alloc, image, files) {
        Ok(bytes) => bytes,
        Err(status) => return status,
    };
    match tree_of(alloc, bytes) {
        Ok(output) => put_output(out, &output),
        Err(status) => status,
    }
}
