//! A World with what is out of it: how it begins, and the events of its callers while the power is on.
ghost use Rattle.std.specs.Prelude.{◌≡◌, ◌≢◌, ◌%◌, ◌*◌, ◌<◌, ◌^◌, true, length, IfOk};
ghost use Rattle.command_line.specs.pm_model.Cells.{AllSingle};
ghost use Rattle.posix_types.specs.declared.call.Mode.{Mode};
ghost use Rattle.split_machine.specs.run_laws.posix_spec.Scripted.{IsSetUp};
ghost use Rattle.split_machine.specs.run_laws.world_view_laws.Views.{HasNone};
ghost use Rattle.split_machine.specs.run_laws.Held.{nothing_out};
ghost use Rattle.split_machine.specs.run_laws.Runs.{IsFirst};
ghost use Rattle.split_machine.specs.world_view_laws.Starts.{AreInLimits};
ghost use Rattle.split_machine.specs.Events.{seen, IsAble, IsUnderWay};

use command_line::{read_script, scripts_are_spelled, scripts_are_within_limits};
use pm_lines::{Pm, Power};
use posix_types::{Mode, Scripts, Who};
use split_machine::{Acted, Begun, Out, Ready, Work, World, caller_event, open_round};
use std::alloc::Global;
use test_kit::{RowError, small_number};

// The World of scripts on a device, of which nothing is lent.
fn mounted(alloc: Global, pm: Pm, mode: Mode, scripts: Scripts) -> Result<World, RowError>
    requires mode { mode ≢ Mode.Posix }
    requires single { AllSingle pm }
    requires whole { length pm % 512 ≡ 0 }
    requires fits { 8 * length pm < 2 ^ 64 }
    requires limits { AreInLimits scripts }
    ensures { IfOk result IsFirst }
{
    let mut power = Power::always();
    match World::mount(alloc, pm, mode, scripts, &mut power) {
        Ok(world) => Ok(world),
        Err(_) => Err(RowError::NotRun),
    }
}

// The World of scripts on an image.
fn begun(alloc: Global, image: &[u8], mode: Mode, scripts: Scripts) -> Result<World, RowError>
    requires mode { mode ≢ Mode.Posix }
    requires limits { AreInLimits scripts }
    ensures { IfOk result IsFirst }
{
    if image.len() % 4096 != 0 {
        return Err(RowError::Misspelled);
    }
    let pm = Pm::from_image(alloc, image)?;
    mounted(alloc, pm, mode, scripts)
}

/// The World of a script on an image: nothing has begun.
pub(crate) fn world_of(
    alloc: Global,
    image: &[u8],
    mode: Mode,
    script: &[u8],
) -> Result<World, RowError>
    requires { mode ≢ Mode.Posix }
    ensures { IfOk result IsFirst }
{
    scripts_are_spelled();
    scripts_are_within_limits();
    match read_script(alloc, script) {
        Ok(scripts) => begun(alloc, image, mode, scripts),
        Err(_) => Err(RowError::Misspelled),
    }
}

/// The round begins.
pub(crate) fn opened(
    alloc: Global,
    world: &mut World,
    out: &mut Out,
    power: &Power,
) -> Result<(), RowError>
    requires first { IsFirst world.old }
    requires none { seen out.old ≡ nothing_out }
    ensures { IfOk result (λ done. IsUnderWay world.new (seen out.new) power.now) }
{
    let _power = power;
    match open_round(world, alloc, out) {
        Ok(()) => Ok(()),
        Err(_) => Err(RowError::NotRun),
    }
}

// Whether a slot is that of a text.
fn is_slot(slot: u32, text: &str) -> bool {
    match small_number(text) {
        Ok(number) => number == slot,
        Err(_) => false,
    }
}

// Whether a job came just as far as is told.
fn is_stage(work: &Work, reply: &str) -> bool {
    match work {
        Work::Began(_) => reply == "begun",
        Work::Filled(_) => reply == "filled",
        Work::Claimed(_, slot) => match reply.strip_prefix("claimed ") {
            Some(text) => is_slot(*slot, text),
            None => false,
        },
        Work::Stored(_, _) => reply == "stored",
        Work::Persisted(_, _) => reply == "persisted",
    }
}

// Whether what came of an event is what is told: how far the job of its caller came; with none out that its call returned, or was
// given up.
fn is_told(out: &Out, who: Who, before: usize, after: usize, reply: &str) -> bool {
    for held in &out.jobs {
        if held.who == who {
            return is_stage(&held.work, reply);
        }
    }
    if after > before {
        reply == "returned"
    } else {
        reply == "given up"
    }
}

// The next event of a caller that can run: whether what came of it is what is told.
fn able_event(
    alloc: Global,
    world: &mut World,
    out: &mut Out,
    who: Who,
    power: &mut Power,
    reply: &str,
) -> Result<bool, RowError>
    requires under_way { IsUnderWay world.old (seen out.old) power.old }
    requires set_up { IsSetUp world.old.scripts world.old.history who }
    requires able { IsAble world.old who }
    ensures { IfOk result (λ told. IsUnderWay world.new (seen out.new) power.new) }
{
    let before = world.history().len();
    match caller_event(world, alloc, out, who, power) {
        Ok(Acted::Event) => Ok(is_told(out, who, before, world.history().len(), reply)),
        Ok(Acted::RoundOver) => Ok(reply == "too few blocks"),
        Ok(Acted::PowerLost) => Err(RowError::PowerLost),
        Err(_) => Err(RowError::NotRun),
    }
}

/// Whether a caller has this name: `s` for the set-up, or the number of a thread.
pub(crate) fn is_caller(who: Who, name: &str) -> bool {
    match who {
        Who::Setup => name == "s",
        Who::Thread(thread) => is_slot(thread, name),
    }
}

// Whether it is told that a call waits for this caller.
fn is_busy(holder: Who, reply: &str) -> bool {
    match reply.strip_prefix("busy ") {
        Some(name) => is_caller(holder, name),
        None => false,
    }
}

// The next call of a caller with no job out, which has to wait: it is tried.
fn waits(
    alloc: Global,
    world: &mut World,
    out: &Out,
    who: Who,
    power: &mut Power,
    reply: &str,
) -> Result<bool, RowError>
    requires under_way { IsUnderWay world.old (seen out.now) power.old }
    requires set_up { IsSetUp world.old.scripts world.old.history who }
    requires none { HasNone world.old who }
    ensures { IfOk result (λ told. IsUnderWay world.new (seen out.now) power.new) }
{
    let _out = out;
    match world.begin(alloc, who, power) {
        Ok(Begun::Busy { holder, .. }) => Ok(is_busy(holder, reply)),
        Ok(_) => Err(RowError::Unlike),
        Err(_) => Err(RowError::NotRun),
    }
}

// Whether the set-up is done, where a caller waits for it.
fn is_up(world: &World, who: Who) -> bool
    requires { world.now.usable ≡ true }
    ensures { result ≡ true → IsSetUp world.now.scripts world.now.history who }
{
    match who {
        Who::Setup => true,
        Who::Thread(_) => world.setup_done(),
    }
}

/// The next event of a caller: whether what comes of it is what is told, or why there is none.
pub(crate) fn event(
    alloc: Global,
    world: &mut World,
    out: &mut Out,
    who: Who,
    power: &mut Power,
    reply: &str,
) -> Result<bool, RowError>
    requires { IsUnderWay world.old (seen out.old) power.old }
    ensures { IfOk result (λ told. IsUnderWay world.new (seen out.new) power.new) }
{
    if !is_up(world, who) {
        return Ok(reply == "waits");
    }
    match world.ready(who) {
        Ready::Yes => able_event(alloc, world, out, who, power, reply),
        Ready::Out => able_event(alloc, world, out, who, power, reply),
        Ready::Busy { .. } => waits(alloc, world, out, who, power, reply),
        Ready::RoundOver => Ok(reply == "round over"),
        Ready::ScriptEnd => Ok(reply == "ended"),
    }
}
