//! A run of the scripts.
ghost use Rattle.std.specs.Prelude.{◌≡◌, ◌≢◌, IfOk, Some, false, true};
ghost use Rattle.run_laws.specs.crash_spec.Orders.{none_picked, Order as MeantOrder};
ghost use Rattle.schedule.specs.Picking.{IsSoFar};
ghost use Rattle.schedule.specs.Seen.{seen_order};
ghost use Rattle.run_laws.specs.Runs.{IsFirst};
ghost use Rattle.run_laws.specs.Between.{CanCrash};
ghost use Rattle.run_laws.specs.Held as holding;
ghost use Rattle.split_machine.specs.declared.outstanding.Acted as done;
ghost use Rattle.split_machine.specs.Events.{seen};
ghost use Rattle.split_machine.specs.Runs.{CanEnd, HasCome, IsAtEnd, IsCrashed, IsEndedBy, IsLeftAfter, IsRunEnded};

use crate::outstanding::{Acted, Out, lines_of, parted};
use crate::picks::step;
use crate::rounds::open_round;
use pm_lines::Power;
use run_laws::NoMemory;
use schedule::{Order, Picker};
use split_world::{Ended, World};
use std::alloc::Global;

/// How the events of a run end: all calls have returned; the cut is reached; or the power went.
#[derive(Clone, Copy)]
pub(crate) enum End {
    All,
    Cut,
    PowerLost,
}

// Whether no event is left until a cut.
fn is_cut(left: Option<u64>) -> bool
    ensures cut { result ≡ true → left ≡ Some 0 }
    ensures more { result ≡ false → left ≢ Some 0 }
{
    match left {
        Some(left) => left == 0,
        None => false,
    }
}

// How many events are left until a cut behind a step: one less behind an event.
fn left_after(left: Option<u64>, acted: Acted) -> Option<u64>
    requires { left ≢ Some 0 }
    ensures { IsLeftAfter left acted result }
{
    match (left, acted) {
        (Some(left), Acted::Event) => Some(left - 1),
        (left, _) => left,
    }
}

// Whether the power went.
fn has_lost(acted: Acted) -> bool
    ensures yes { result ≡ true → acted ≡ done.Acted.PowerLost }
    ensures no { result ≡ false → acted ≢ done.Acted.PowerLost }
{
    match acted {
        Acted::PowerLost => true,
        Acted::Event | Acted::RoundOver => false,
    }
}

// The events of a run, one after another, up to its cut. None begins with the power off.
fn run_events(
    world: &mut World,
    alloc: Global,
    out: &mut Out,
    picker: &mut Picker,
    cut: Option<u64>,
    power: &mut Power,
) -> Result<End, NoMemory>
    requires first { IsFirst world.old }
    requires none { seen out.old ≡ holding.nothing_out }
    ensures ends { IfOk result (IsAtEnd world.old world.new (seen out.new) power.old power.new) }
    ensures comes { (order : MeantOrder) → IsSoFar picker.old order none_picked
        → IfOk result (HasCome world.old order cut world.new (seen out.new) power.old power.new) }
{
    let mut left = cut;
    'events: loop {
        if is_cut(left) {
            return Ok(End::Cut);
        }
        if !power.on() {
            return Ok(End::PowerLost);
        }
        open_round(world, alloc, out)?;
        let Some(acted) = step(world, alloc, out, picker, power)? else {
            return Ok(End::All);
        };
        if has_lost(acted) {
            return Ok(End::PowerLost);
        }
        left = left_after(left, acted);
    }
}

/// What a power loss leaves of a World with what is out of it. The calls of jobs that cannot have acted need not be among
/// those that the device keeps the promise for.
pub fn crash(alloc: Global, world: World, out: Out, power: &Power) -> Result<Ended, NoMemory>
    requires { CanCrash world (seen out) }
    ensures { IfOk result (IsCrashed world (seen out) power.now power.now) }
{
    let _power = power;
    let (jobs, filled) = parted(alloc, out.jobs)?;
    Ok(Ended::Lost(world.crash(lines_of(alloc, out.log), jobs, filled)))
}

// The end of a run: an unmount, or a power loss.
fn end_run(
    alloc: Global,
    world: World,
    out: Out,
    end: End,
    power: &mut Power,
) -> Result<Ended, NoMemory>
    requires { CanEnd world (seen out) end }
    ensures { IfOk result (IsEndedBy world (seen out) power.old power.new end) }
{
    match end {
        End::All => world.unmount(alloc, lines_of(alloc, out.log), power),
        End::Cut | End::PowerLost => crash(alloc, world, out, power),
    }
}

/// Runs the scripts of a World that was just mounted, event by event: those of the set-up, and then those of the
/// threads, in an order. With a cut the power is lost behind so many events, before the unmount. Out of memory drops
/// the World; no file of the operating system is touched.
pub fn run(
    alloc: Global,
    world: World,
    order: Order,
    cut: Option<u64>,
    power: &mut Power,
) -> Result<Ended, NoMemory>
    requires { IsFirst world }
    ensures { IfOk result (IsRunEnded world (seen_order order) cut power.old power.new) }
{
    let mut world = world;
    let jobs = Vec::with_capacity(alloc, 9)?;
    let mut out = Out { log: None, jobs };
    let mut picker = Picker::new(order);
    let end = run_events(&mut world, alloc, &mut out, &mut picker, cut, power)?;
    let _acts = world.acts();
    end_run(alloc, world, out, end, power)
}
