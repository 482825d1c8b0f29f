//! The command `run`: a script is read and run on an image by threads of the machine; what it leaves is kept and told as that of
//! `step`.
ghost use Rattle.std.specs.Prelude.{◌≡◌, ◌≢◌, true, List, ℕ, None, IfErr, IfOk};
ghost use Rattle.outside.specs.Outside.{Rose};
ghost use Rattle.command_line.specs.pm_model.Cells.{AllSingle};
ghost use Rattle.command_line.specs.pm_model.Images.{words_of};
ghost use Rattle.command_line.specs.pm_model.Words.{word_at};
ghost use Rattle.command_line.specs.script_text.Scripts.{bad_line};
ghost use Rattle.command_line.specs.Command as commands;
ghost use Rattle.command_line.specs.Seen.{seen_image, seen_options};
ghost use Rattle.posix_types.specs.declared.call.Mode.{Mode};
ghost use Rattle.split_machine.specs.image_model.Rules.{geometry_of};
ghost use Rattle.split_machine.specs.world_view_laws.Starts.{AreInLimits};
ghost use Rattle.split_top.specs.Devices.{CanMount, IsDeviceOf};
ghost use Rattle.split_top.specs.Images.{AreOfImage, IsMounted};
ghost use Rattle.split_top.specs.Jobs.{IsAnswer, IsUnrun};
ghost use Rattle.split_top.specs.Runs.{IsThreadRun, Task};
ghost use Rattle.split_top.specs.Top.{IsRunOn, IsScriptRunOn, step_text};
ghost use Rattle.split_top.specs.Worlds.{IsRanOn, IsWorldOn};

use crate::images::read_image;
use crate::jobs::read_file;
use crate::laws;
use crate::opening::{Opened, open_image};
use crate::running::Outcome;
use crate::runs::{Ran, read_back, world_on};
use crate::stepping::finish;
use command_line::{Geometry, Image, Options, ScriptFault, Status, read_script};
use outside::{Files, Sink};
use posix_types::Scripts;
use report_text::{history_text, tree_text};
use split_machine::{NoMemory, World};
use split_threads::{Gate, run};
use std::alloc::Global;
use std::sync::Wait;
use std::thread::Threads;

/// What a run by threads has of the machine: leave to start them and to wait, and what their workers call.
#[derive(Drop)]
pub(crate) struct Machine<'a, R, G> {
    pub rt: &'a R,
    pub gate: &'a G,
}

/// What the words name: an image, a script and options.
#[derive(Drop)]
pub(crate) struct Named<'a> {
    pub image: &'a Image<'a>,
    pub script: &'a str,
    pub options: &'a Options<'a>,
}

/// Runs a World in which nothing has begun, on a device with these numbers, and reads back what is left.
fn run_world<R: Threads + Wait + Sync, G: Gate + Sync>(
    machine: &Machine<'_, R, G>,
    alloc: Global,
    world: World,
    geometry: Geometry,
    options: &Options<'_>,
) -> Result<Ran, NoMemory>
    requires begins { (task : Task) × IsWorldOn geometry task world }
    ensures ran { IfOk result (λ ran. (task : Task) → IsWorldOn geometry task world
        → IsThreadRun task (seen_options options.now) ran.history.items ran.unfinished.items ran.tree) }
    ensures single { IfOk result (λ ran. AllSingle ran.pm) }
    ensures mounted { IfOk result (λ ran. (kept : List ℕ) → IsDeviceOf kept ran.pm → IsMounted kept ran.tree) }
    ensures numbers { IfOk result (λ ran. (kept : List ℕ) → IsDeviceOf kept ran.pm → geometry_of (word_at kept) ≡ geometry) }
{
    let ended = run(machine.rt, alloc, world, options.stop, machine.gate)?;
    Ok(read_back(alloc, ended, geometry, options)?)
}

/// Runs scripts on the device of an image, and reads back what is left.
fn run_opened<R: Threads + Wait + Sync, G: Gate + Sync>(
    machine: &Machine<'_, R, G>,
    alloc: Global,
    opened: Opened,
    scripts: Scripts,
    options: &Options<'_>,
) -> Result<Ran, NoMemory>
    requires mounts { CanMount opened.geometry opened.pm }
    requires limits { AreInLimits scripts }
    requires mode { options.now.mode ≢ Mode.Posix }
    ensures ran { IfOk result (λ ran.
        IsRanOn true (words_of opened.pm) opened.geometry scripts (seen_options options.now) ran.history.items ran.unfinished.items ran.tree) }
    ensures single { IfOk result (λ ran. AllSingle ran.pm) }
    ensures mounted { IfOk result (λ ran. (kept : List ℕ) → IsDeviceOf kept ran.pm → IsMounted kept ran.tree) }
    ensures numbers { IfOk result (λ ran. (kept : List ℕ) → IsDeviceOf kept ran.pm
        → geometry_of (word_at kept) ≡ opened.geometry) }
{
    let geometry = opened.geometry;
    let world = world_on(alloc, opened, scripts, options.mode)?;
    run_world(machine, alloc, world, geometry, options)
}

/// Runs scripts on the device of an image, and tells what is left.
fn outcome_of<R: Threads + Wait + Sync, G: Gate + Sync>(
    machine: &Machine<'_, R, G>,
    alloc: Global,
    opened: Opened,
    scripts: Scripts,
    options: &Options<'_>,
) -> Result<Outcome, NoMemory>
    requires mounts { CanMount opened.geometry opened.pm }
    requires limits { AreInLimits scripts }
    requires mode { options.now.mode ≢ Mode.Posix }
    requires threads { options.now.by_threads ≡ true }
    ensures single { IfOk result (λ o. AllSingle o.pm) }
    ensures ran { IfOk result (λ o. (image : List ℕ) → IsDeviceOf image opened.pm
        → (kept : List ℕ) → IsDeviceOf kept o.pm
        → IsRunOn image opened.geometry scripts (seen_options options.now) step_text o.output.items kept) }
{
    let ran = run_opened(machine, alloc, opened, scripts, options)?;
    let mut output = history_text(alloc, &ran.history)?;
    let tree = tree_text(alloc, &ran.tree)?;
    output.extend_from_slice(&tree)?;
    Ok(Outcome { output, pm: ran.pm })
}

/// Reads a script and runs it on the device of an image.
fn run_script<R: Threads + Wait + Sync, G: Gate + Sync>(
    machine: &Machine<'_, R, G>,
    alloc: Global,
    opened: Opened,
    bytes: &[u8],
    options: &Options<'_>,
) -> Result<Outcome, Status>
    requires mounts { CanMount opened.geometry opened.pm }
    requires mode { options.now.mode ≢ Mode.Posix }
    requires threads { options.now.by_threads ≡ true }
    ensures script { IfOk result (λ o. bad_line bytes.now ≡ None) }
    ensures single { IfOk result (λ o. AllSingle o.pm) }
    ensures outcome { IfOk result (λ o. (image : List ℕ) → IsDeviceOf image opened.pm
        → (kept : List ℕ) → IsDeviceOf kept o.pm
        → IsScriptRunOn image opened.geometry bytes.now (seen_options options.now) o.output.items kept) }
    ensures kind { IfErr result (λ status. IsUnrun bytes.now status) }
{
    laws::scripts_are_spelled();
    laws::scripts_are_within_limits();
    match read_script(alloc, bytes) {
        Ok(scripts) => match outcome_of(machine, alloc, opened, scripts, options) {
            Ok(outcome) => Ok(outcome),
            Err(_) => Err(Status::NoMemory),
        },
        Err(ScriptFault::Bad { line }) => Err(Status::BadScript { line }),
        Err(ScriptFault::NoMemory) => Err(Status::NoMemory),
    }
}

/// Reads the script that is named, runs it on the image, keeps the image that is left, and puts the output.
fn run_on<R: Threads + Wait + Sync, G: Gate + Sync, F: Files, K: Sink>(
    machine: &Machine<'_, R, G>,
    alloc: Global,
    opened: Opened,
    named: &Named<'_>,
    files: &mut F,
    out: &mut K,
) -> Status
    requires mounts { CanMount opened.geometry opened.pm }
    requires mode { named.now.options.now.mode ≢ Mode.Posix }
    requires threads { named.now.options.now.by_threads ≡ true }
    ensures { (of : commands.Image) (image : List ℕ) → AreOfImage (F.told files.old) of image
        → IsDeviceOf image opened.pm
        → IsAnswer (commands.Step (record { image = of; script = named.now.script.now; options = seen_options named.now.options.now })) (F.told files.old) (F.told files.new) (K.told out.old) (K.told out.new) (Rose (F.misses files.old) (F.misses files.new)) (Rose (F.faults files.old) (F.faults files.new)) (Rose (K.faults out.old) (K.faults out.new)) result }
{
    let bytes = match read_file(alloc, files, named.script) {
        Ok(bytes) => bytes,
        Err(status) => return status,
    };
    match run_script(machine, alloc, opened, &bytes, named.options) {
        Ok(outcome) => finish(alloc, named.options, &outcome, files, out),
        Err(status) => status,
    }
}

/// Reads the image and the script, runs the script, keeps the image that is left, and puts the output.
pub(crate) fn run_threads<R: Threads + Wait + Sync, G: Gate + Sync, F: Files, K: Sink>(
    machine: &Machine<'_, R, G>,
    alloc: Global,
    named: &Named<'_>,
    files: &mut F,
    out: &mut K,
) -> Status
    requires mode { named.now.options.now.mode ≢ Mode.Posix }
    requires threads { named.now.options.now.by_threads ≡ true }
    ensures { IsAnswer (commands.Step (record { image = seen_image named.now.image.now; script = named.now.script.now; options = seen_options named.now.options.now })) (F.told files.old) (F.told files.new) (K.told out.old) (K.told out.new) (Rose (F.misses files.old) (F.misses files.new)) (Rose (F.faults files.old) (F.faults files.new)) (Rose (K.faults out.old) (K.faults out.new)) result }
{
    let bytes = match read_image(alloc, named.image, files) {
        Ok(bytes) => bytes,
        Err(status) => return status,
    };
    match open_image(alloc, bytes) {
        Ok(opened) => run_on(machine, alloc, opened, named, files, out),
        Err(status) => status,
    }
}
