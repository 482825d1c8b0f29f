//! The command `load`: the scripts of a load are run on a fresh image, and the sums of the run are put.
ghost use Rattle.std.specs.Prelude.{◌≡◌, ◌≢◌, false, List, ℕ, IfOk};
ghost use Rattle.outside.specs.Outside.{Rose};
ghost use Rattle.command_line.specs.Command as commands;
ghost use Rattle.command_line.specs.Seen.{IsBuiltLoad, seen_options};
ghost use Rattle.posix_types.specs.declared.call.Mode.{Mode};
ghost use Rattle.split_cases.specs.Summary.{summary_text};
ghost use Rattle.split_machine.specs.world_view_laws.Starts.{AreInLimits};
ghost use Rattle.split_top.specs.Devices.{CanMount, IsDeviceOf};
ghost use Rattle.split_top.specs.Images.{IsFreshImage};
ghost use Rattle.split_top.specs.Jobs.{IsAnswer, IsOpenedFresh};
ghost use Rattle.split_top.specs.Top.{IsLoaded, IsRunOn, load_numbers};

use crate::device_images::has_image;
use crate::jobs::put_output;
use crate::laws;
use crate::making::fresh_bytes;
use crate::opening::{Opened, device};
use crate::runs::run;
use command_line::{Geometry, Mode, Options, Status, plain_options};
use outside::{Files, Sink};
use posix_types::Scripts;
use split_cases::{load_scripts, summary};
use split_machine::NoMemory;
use std::alloc::{AllocError, Global};

/// The numbers of the image on which a load runs.
fn load_numbers() -> Geometry
    ensures { result ≡ load_numbers }
{
    let Some(geometry) = Geometry::checked(4096, 256, 64, 128) else {
        unreachable!()
    };
    geometry
}

/// The device of a fresh image.
fn fresh_device(alloc: Global) -> Result<Opened, AllocError>
    ensures { IfOk result IsOpenedFresh }
{
    let geometry = load_numbers();
    let bytes = fresh_bytes(alloc, &geometry)?;
    let pm = device(alloc, bytes)?;
    Ok(Opened { pm, geometry })
}

/// The sums of a run of scripts on the device of an image.
fn sums_of(
    alloc: Global,
    opened: Opened,
    scripts: Scripts,
    options: &Options<'_>,
) -> Result<Vec<u8>, NoMemory>
    requires mounts { CanMount opened.geometry opened.pm }
    requires limits { AreInLimits scripts }
    requires mode { options.now.mode ≢ Mode.Posix }
    requires events { options.now.by_threads ≡ false }
    ensures { IfOk result (λ text. (image : List ℕ) → IsDeviceOf image opened.pm
        → (kept : List ℕ) × IsRunOn image opened.geometry scripts (seen_options options.now) summary_text text.items kept) }
{
    let ran = run(alloc, opened, scripts, options)?;
    has_image(&ran.pm);
    let text = summary(alloc, &ran.history, &ran.tree)?;
    Ok(text)
}

/// The sums of a load.
fn loaded(alloc: Global, calls: u32, threads: u32, mode: Mode) -> Result<Vec<u8>, NoMemory>
    requires { IsBuiltLoad (record { calls = calls; threads = threads; mode = mode }) }
    ensures { IfOk result (λ text. IsLoaded (record { calls = calls; threads = threads; mode = mode }) text.items) }
{
    laws::scripts_are_spelled();
    laws::scripts_are_within_limits();
    laws::load_is_a_script();
    let opened = fresh_device(alloc)?;
    let scripts = load_scripts(alloc, calls, threads)?;
    let text = sums_of(alloc, opened, scripts, &plain_options(mode))?;
    Ok(text)
}

/// Runs the scripts of a load on a fresh image, and puts the sums of the run.
pub(crate) fn run_load<F: Files, K: Sink>(
    alloc: Global,
    calls: u32,
    threads: u32,
    mode: Mode,
    files: &mut F,
    out: &mut K,
) -> Status
    requires { IsBuiltLoad (record { calls = calls; threads = threads; mode = mode }) }
    ensures { IsAnswer (commands.Load (record { calls = calls; threads = threads; mode = mode })) (F.told files.old) (F.told files.new) (K.told out.old) (K.told out.new) (Rose (F.misses files.old) (F.misses files.new)) (Rose (F.faults files.old) (F.faults files.new)) (Rose (K.faults out.old) (K.faults out.new)) result }
{
    match loaded(alloc, calls, threads, mode) {
        Ok(text) => put_output(out, &text),
        Err(_) => Status::NoMemory,
    }
}
