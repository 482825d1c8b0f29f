//! What is done with the bytes of an image, without files: a script is run on it, or it is mounted again. Tests look through these at
//! what no command prints: the calls that a loss leaves unfinished, and what is left of an image in the midst of a mount.
ghost use Rattle.std.specs.Prelude.{◌≡◌, ◌≢◌, false, None, List, ℕ, IfErr, IfOk};
ghost use Rattle.command_line.specs.pm_model.Images.{words_of};
ghost use Rattle.command_line.specs.script_text.Scripts.{bad_line, scripts_of};
ghost use Rattle.command_line.specs.Seen.{seen_options};
ghost use Rattle.posix_types.specs.declared.call.Mode.{Mode};
ghost use Rattle.split_top.specs.Devices.{CanMount, IsDeviceOf};
ghost use Rattle.split_top.specs.Jobs.{IsUnopened, IsUnrun};
ghost use Rattle.split_top.specs.Remounts.{AreRemounted, GoesOn};
ghost use Rattle.split_top.specs.Trials.{IsLeftByMounts, IsTrial, IsUntried, KeepsContent};
ghost use Rattle.split_top.specs.Worlds.{IsRanOn};

use crate::laws;
use crate::opening::{Opened, open_image};
use crate::remounting::remount_each;
use crate::runs::{Ran, run};
use command_line::{Options, ScriptFault, Status, read_script};
use pm_lines::{Choice, Pm};
use std::alloc::{AllocError, Global};

/// Runs a script on the device of an image.
fn ran_on(
    alloc: Global,
    opened: Opened,
    script: &[u8],
    options: &Options<'_>,
) -> Result<Ran, Status>
    requires mounts { CanMount opened.geometry opened.pm }
    requires mode { options.now.mode ≢ Mode.Posix }
    ensures script { IfOk result (λ ran. bad_line script.now ≡ None) }
    ensures ran { IfOk result (λ ran. IsRanOn false (words_of opened.pm) opened.geometry (scripts_of script.now) (seen_options options.now) ran.history.items ran.unfinished.items ran.tree) }
    ensures kind { IfErr result (λ status. IsUnrun script.now status) }
{
    laws::scripts_are_spelled();
    laws::scripts_are_within_limits();
    match read_script(alloc, script) {
        Ok(scripts) => match run(alloc, opened, scripts, options) {
            Ok(ran) => Ok(ran),
            Err(_) => Err(Status::NoMemory),
        },
        Err(ScriptFault::Bad { line }) => Err(Status::BadScript { line }),
        Err(ScriptFault::NoMemory) => Err(Status::NoMemory),
    }
}

/// Runs a script on an image by its options, and answers what the run leaves: the calls that returned, those that had begun and did
/// not, and the tree. Nothing is kept.
pub fn run_image(
    alloc: Global,
    image: Vec<u8>,
    script: &[u8],
    options: &Options<'_>,
) -> Result<Ran, Status>
    requires mode { options.now.mode ≢ Mode.Posix }
    requires events { options.now.by_threads ≡ false }
    ensures ran { IfOk result (λ ran. IsTrial image.items script.now (seen_options options.now) ran.history.items ran.unfinished.items ran.tree) }
    ensures kind { IfErr result (IsUntried image.items script.now) }
{
    let opened = open_image(alloc, image)?;
    ran_on(alloc, opened, script, options)
}

/// The bytes of a device that was mounted once for each of these numbers.
fn mounted_bytes(
    alloc: Global,
    opened: Opened,
    choice: Choice,
    again: &[u64],
) -> Result<Vec<u8>, AllocError>
    requires { CanMount opened.geometry opened.pm }
    ensures left { IfOk result (λ after. (image : List ℕ) → IsDeviceOf image opened.pm → IsLeftByMounts image choice again.now after.items) }
    ensures kept { IfOk result (λ after. (image : List ℕ) → IsDeviceOf image opened.pm → KeepsContent image after.items) }
{
    let last = remount_each(alloc, opened.pm, &opened.geometry, choice, again)?;
    last.choose(alloc, Choice::Newest)
}

/// Mounts an image once for each of these numbers, each time with power for so many steps, and answers the image that is left. Where
/// the steps run out, the choice is applied to what the mount hands back; where they last, the mounted device goes on. The image keeps its
/// content, whatever the numbers are.
pub fn remount_image(
    alloc: Global,
    image: Vec<u8>,
    choice: Choice,
    again: &[u64],
) -> Result<Vec<u8>, Status>
    ensures left { IfOk result (λ after. IsLeftByMounts image.items choice again.now after.items) }
    ensures kept { IfOk result (λ after. KeepsContent image.items after.items) }
    ensures kind { IfErr result (IsUnopened image.items) }
{
    let opened = open_image(alloc, image)?;
    match mounted_bytes(alloc, opened, choice, again) {
        Ok(bytes) => Ok(bytes),
        Err(_) => Err(Status::NoMemory),
    }
}
