//! An image is opened: its length is tried on its bytes, and the rules of a checked image on the device that they become.
//! The bytes go with it. The one device is then mounted.
ghost use Rattle.std.specs.Prelude.{◌↔◌, IsTrue, IfErr, IfOk, length};
ghost use Rattle.split_machine.specs.image_model.Rules.{IsWholeBlocks};
ghost use Rattle.split_top.specs.Devices.{IsDeviceOf, IsOpened};
ghost use Rattle.split_top.specs.Jobs.{IsUnopened};

use command_line::{Geometry, Status};
use k_check::{CheckFault, check};
use pm_lines::Pm;
use std::alloc::{AllocError, Global};

/// The device of an image that can be opened, and its numbers.
#[derive(Drop)]
pub(crate) struct Opened {
    pub pm: Pm,
    pub geometry: Geometry,
}

/// Whether so many bytes are whole blocks, as many as an image may have.
fn is_whole(bytes: usize) -> bool
    ensures { IsTrue result ↔ IsWholeBlocks bytes }
{
    if bytes % 4096 != 0 {
        return false;
    }
    let blocks = bytes / 4096;
    if blocks < 64 || blocks > 16_384 {
        return false;
    }
    true
}

/// The device of an image, in place of its bytes.
pub(crate) fn device(alloc: Global, bytes: Vec<u8>) -> Result<Pm, AllocError>
    requires { IsWholeBlocks (length bytes.items) }
    ensures { IfOk result (IsDeviceOf bytes.items) }
{
    Pm::from_image(alloc, &bytes)
}

/// The device of an image that can be opened, or why it is refused.
pub(crate) fn open_image(alloc: Global, bytes: Vec<u8>) -> Result<Opened, Status>
    ensures opened { IfOk result (λ opened. IsOpened bytes.items opened.geometry opened.pm) }
    ensures kind { IfErr result (IsUnopened bytes.items) }
{
    if !is_whole(bytes.len()) {
        return Err(Status::BadImage {
            rule: 1,
            place: bytes.len() as u64,
        });
    }
    let Ok(pm) = device(alloc, bytes) else {
        return Err(Status::NoMemory);
    };
    match check(alloc, &pm) {
        Ok(geometry) => Ok(Opened { pm, geometry }),
        Err(CheckFault::Bad(bad)) => Err(Status::BadImage {
            rule: bad.rule,
            place: bad.place,
        }),
        Err(CheckFault::NoMemory) => Err(Status::NoMemory),
    }
}
