//! The command `step`: a script is read and run on an image; the image that is left is kept where a name says so, and the
//! history and the tree that is left are put.
ghost use Rattle.std.specs.Prelude.{◌≡◌, ◌≢◌, false, List, ℕ, Err, IfErr, IsSome, OnErr, OnOk};
ghost use Rattle.outside.specs.Outside.{Rose};
ghost use Rattle.command_line.specs.pm_model.Cells.{AllSingle};
ghost use Rattle.command_line.specs.Command as commands;
ghost use Rattle.command_line.specs.Seen.{seen_image, seen_options};
ghost use Rattle.posix_types.specs.declared.call.Mode.{Mode};
ghost use Rattle.split_top.specs.Devices.{CanMount, IsDeviceOf};
ghost use Rattle.split_top.specs.Images.{AreOfImage};
ghost use Rattle.split_top.specs.Jobs.{IsAnswer, IsKept, IsUnkept};
ghost use Rattle.split_top.specs.Top.{CompletesStep, IsStepped};

use crate::device_images::has_image;
use crate::images::read_image;
use crate::jobs::{put_output, read_file};
use crate::opening::{Opened, open_image};
use crate::running::{Outcome, run_script};
use command_line::{Image, Options, Status};
use outside::{FileFault, Files, Sink};
use pm_lines::Choice;
use std::alloc::Global;

/// Replaces the file that a name says, where one does, by the image that a run left. Only then its bytes are made.
fn keep_image<F: Files>(
    alloc: Global,
    options: &Options<'_>,
    outcome: &Outcome,
    files: &mut F,
) -> Result<(), Status>
    requires { AllSingle outcome.now.pm }
    ensures kept { OnOk result (IsKept (seen_options options.now).keep outcome.now.pm (F.told files.old) (F.told files.new)) }
    ensures refused { OnErr result (F.told files.new ≡ F.told files.old) }
    ensures kind { IfErr result IsUnkept }
    ensures failed { result ≡ Err Status.WriteFault → IsSome (seen_options options.now).keep × Rose (F.faults files.old) (F.faults files.new) }
{
    let Some(name) = options.keep else {
        has_image(&outcome.pm);
        return Ok(());
    };
    let Ok(image) = outcome.pm.choose(alloc, Choice::Newest) else {
        return Err(Status::NoMemory);
    };
    match files.replace(name.as_str(), &image) {
        Ok(()) => Ok(()),
        Err(FileFault::NoMemory) => Err(Status::NoMemory),
        Err(FileFault::Missing | FileFault::Failed) => Err(Status::WriteFault),
    }
}

/// Keeps the image that a run left where a name says so, and then puts the output.
pub(crate) fn finish<F: Files, K: Sink>(
    alloc: Global,
    options: &Options<'_>,
    outcome: &Outcome,
    files: &mut F,
    out: &mut K,
) -> Status
    requires { AllSingle outcome.now.pm }
    ensures { (run : commands.Run) → run.options ≡ seen_options options.now
        → ((kept : List ℕ) → IsDeviceOf kept outcome.now.pm
        → IsStepped (F.told files.old) run outcome.now.output.items kept)
        → CompletesStep run (F.told files.old) Status.Done
        → IsAnswer (commands.Step run) (F.told files.old) (F.told files.new) (K.told out.old) (K.told out.new) (Rose (F.misses files.old) (F.misses files.new)) (Rose (F.faults files.old) (F.faults files.new)) (Rose (K.faults out.old) (K.faults out.new)) result }
{
    match keep_image(alloc, options, outcome, files) {
        Ok(()) => put_output(out, &outcome.output),
        Err(status) => status,
    }
}

/// Reads the script of this name, runs it on the image, keeps the image that is left, and puts the output.
fn run_on<F: Files, K: Sink>(
    alloc: Global,
    opened: Opened,
    script: &str,
    options: &Options<'_>,
    files: &mut F,
    out: &mut K,
) -> Status
    requires mounts { CanMount opened.geometry opened.pm }
    requires mode { options.now.mode ≢ Mode.Posix }
    requires events { options.now.by_threads ≡ false }
    ensures { (named : commands.Image) (image : List ℕ) → AreOfImage (F.told files.old) named image
        → IsDeviceOf image opened.pm
        → IsAnswer (commands.Step (record { image = named; script = script.now; options = seen_options options.now })) (F.told files.old) (F.told files.new) (K.told out.old) (K.told out.new) (Rose (F.misses files.old) (F.misses files.new)) (Rose (F.faults files.old) (F.faults files.new)) (Rose (K.faults out.old) (K.faults out.new)) result }
{
    let bytes = match read_file(alloc, files, script) {
        Ok(bytes) => bytes,
        Err(status) => return status,
    };
    match run_script(alloc, opened, &bytes, options) {
        Ok(outcome) => finish(alloc, options, &outcome, files, out),
        Err(status) => status,
    }
}

/// Reads the image and the script, runs the script, keeps the image that is left, and puts the output.
pub(crate) fn run_step<F: Files, K: Sink>(
    alloc: Global,
    image: &Image<'_>,
    script: &str,
    options: &Options<'_>,
    files: &mut F,
    out: &mut K,
) -> Status
    requires mode { options.now.mode ≢ Mode.Posix }
    requires events { options.now.by_threads ≡ false }
    ensures { IsAnswer (commands.Step (record { image = seen_image image.now; script = script.now; options = seen_options options.now })) (F.told files.old) (F.told files.new) (K.told out.old) (K.told out.new) (Rose (F.misses files.old) (F.misses files.new)) (Rose (F.faults files.old) (F.faults files.new)) (Rose (K.faults out.old) (K.faults out.new)) result }
{
    let bytes = match read_image(alloc, image, files) {
        Ok(bytes) => bytes,
        Err(status) => return status,
    };
    match open_image(alloc, bytes) {
        Ok(opened) => run_on(alloc, opened, script, options, files, out),
        Err(status) => status,
    }
}
