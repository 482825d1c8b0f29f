//! A script is read, run on an image by events, and told.
ghost use Rattle.std.specs.Prelude.{◌≡◌, ◌≢◌, false, List, ℕ, None, IfErr, IfOk};
ghost use Rattle.command_line.specs.pm_model.Cells.{AllSingle};
ghost use Rattle.command_line.specs.script_text.Scripts.{bad_line};
ghost use Rattle.command_line.specs.Seen.{seen_options};
ghost use Rattle.posix_types.specs.declared.call.Mode.{Mode};
ghost use Rattle.split_top.specs.Devices.{CanMount, IsDeviceOf};
ghost use Rattle.split_top.specs.Jobs.{IsUnrun};
ghost use Rattle.split_top.specs.Top.{IsRunOn, IsScriptRunOn, step_text};
ghost use Rattle.split_machine.specs.world_view_laws.Starts.{AreInLimits};

use crate::laws;
use crate::opening::Opened;
use crate::runs::run;
use command_line::{Options, ScriptFault, Status, read_script};
use pm_lines::Pm;
use posix_types::Scripts;
use report_text::{history_text, tree_text};
use split_machine::NoMemory;
use std::alloc::Global;

/// The text of the history of a run and of the tree that was left, and the device of the image that was left.
#[derive(Drop)]
pub(crate) struct Outcome {
    pub output: Vec<u8>,
    pub pm: Pm,
}

/// Runs scripts on the device of an image.
fn outcome_of(
    alloc: Global,
    opened: Opened,
    scripts: Scripts,
    options: &Options<'_>,
) -> Result<Outcome, NoMemory>
    requires mounts { CanMount opened.geometry opened.pm }
    requires limits { AreInLimits scripts }
    requires mode { options.now.mode ≢ Mode.Posix }
    requires events { options.now.by_threads ≡ false }
    ensures single { IfOk result (λ o. AllSingle o.pm) }
    ensures ran { IfOk result (λ o. (image : List ℕ) → IsDeviceOf image opened.pm
        → (kept : List ℕ) → IsDeviceOf kept o.pm
        → IsRunOn image opened.geometry scripts (seen_options options.now) step_text o.output.items kept) }
{
    let ran = run(alloc, opened, scripts, options)?;
    let mut output = history_text(alloc, &ran.history)?;
    let tree = tree_text(alloc, &ran.tree)?;
    output.extend_from_slice(&tree)?;
    Ok(Outcome { output, pm: ran.pm })
}

/// Reads a script and runs it on the device of an image.
pub(crate) fn run_script(
    alloc: Global,
    opened: Opened,
    bytes: &[u8],
    options: &Options<'_>,
) -> Result<Outcome, Status>
    requires mounts { CanMount opened.geometry opened.pm }
    requires mode { options.now.mode ≢ Mode.Posix }
    requires events { options.now.by_threads ≡ false }
    ensures script { IfOk result (λ o. bad_line bytes.now ≡ None) }
    ensures single { IfOk result (λ o. AllSingle o.pm) }
    ensures outcome { IfOk result (λ o. (image : List ℕ) → IsDeviceOf image opened.pm
        → (kept : List ℕ) → IsDeviceOf kept o.pm
        → IsScriptRunOn image opened.geometry bytes.now (seen_options options.now) o.output.items kept) }
    ensures kind { IfErr result (λ status. IsUnrun bytes.now status) }
{
    laws::scripts_are_spelled();
    laws::scripts_are_within_limits();
    match read_script(alloc, bytes) {
        Ok(scripts) => match outcome_of(alloc, opened, scripts, options) {
            Ok(outcome) => Ok(outcome),
            Err(_) => Err(Status::NoMemory),
        },
        Err(ScriptFault::Bad { line }) => Err(Status::BadScript { line }),
        Err(ScriptFault::NoMemory) => Err(Status::NoMemory),
    }
}
