//! The device that a run left is mounted again: once for each number that is asked for, with power for so many steps.
//!
//! The choice is applied to the device first. Where the power of a mount runs out, it is applied again, to the device
//! that the mount hands back; where it lasts, the mounted device goes on. Each of these devices can be mounted, and has
//! the content of the first (`GoesOn`), so a loss in a mount costs nothing.
ghost use Rattle.std.specs.Prelude.{IfOk};
ghost use Rattle.command_line.specs.Seen.{seen_options};
ghost use Rattle.command_line.specs.pm_model.Images.{words_of};
ghost use Rattle.split_top.specs.Devices.{CanMount};
ghost use Rattle.split_top.specs.Remounts.{AreRemounted, CanCrash, GoesOn, IsCrashed, IsRemounted};

use crate::opening::device;
use command_line::{Geometry, Options, read_again};
use k_check::crash_image;
use pm_lines::{Choice, Pm, Power};
use split_machine::{MountFault, mount};
use std::alloc::{AllocError, Global};

/// The device of the image that a power loss leaves of a device by the choice.
pub(crate) fn crashed_device(
    alloc: Global,
    pm: &Pm,
    geometry: &Geometry,
    choice: Choice,
) -> Result<Pm, AllocError>
    requires { CanCrash geometry.now pm.now }
    ensures crashed { IfOk result (IsCrashed geometry.now choice pm.now) }
    ensures mounts { IfOk result (CanMount geometry.now) }
{
    let bytes = crash_image(alloc, pm, geometry, choice)?;
    device(alloc, bytes)
}

/// Mounts a device with power for so many steps, and answers the device that goes on.
fn remount(
    alloc: Global,
    pm: Pm,
    geometry: &Geometry,
    choice: Choice,
    steps: u64,
) -> Result<Pm, AllocError>
    requires { CanMount geometry.now pm }
    ensures remounted { IfOk result (IsRemounted geometry.now choice steps pm) }
    ensures goes_on { IfOk result (GoesOn geometry.now (words_of pm)) }
{
    let mut power = Power::after(steps);
    match mount(alloc, pm, false, &mut power) {
        Ok(k) => Ok(k.into_pm()),
        Err(MountFault::PowerLost(left)) => crashed_device(alloc, &left, geometry, choice),
        Err(MountFault::NoMemory) => Err(AllocError),
        Err(MountFault::Bad(_)) => unreachable!(),
    }
}

/// Mounts a device once for each of these numbers, each time the device that went on.
pub(crate) fn remount_each(
    alloc: Global,
    pm: Pm,
    geometry: &Geometry,
    choice: Choice,
    again: &[u64],
) -> Result<Pm, AllocError>
    requires { CanMount geometry.now pm }
    ensures remounted { IfOk result (AreRemounted geometry.now choice again.now pm) }
    ensures goes_on { IfOk result (GoesOn geometry.now (words_of pm)) }
{
    if again.is_empty() {
        return Ok(pm);
    }
    let next = remount(alloc, pm, geometry, choice, again[0])?;
    remount_each(alloc, next, geometry, choice, &again[1..])
}

/// Mounts a device once for each number of the option `again`.
pub(crate) fn remounted(
    alloc: Global,
    pm: Pm,
    geometry: &Geometry,
    options: &Options<'_>,
) -> Result<Pm, AllocError>
    requires { CanMount geometry.now pm }
    ensures remounted { IfOk result (AreRemounted geometry.now options.now.choice (seen_options options.now).again pm) }
    ensures goes_on { IfOk result (GoesOn geometry.now (words_of pm)) }
{
    let again = read_again(alloc, options)?;
    remount_each(alloc, pm, geometry, options.choice, &again)
}
