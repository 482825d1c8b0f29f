//! Who comes next.
ghost use Rattle.std.specs.Prelude.{◌≡◌, ◌≢◌, ◌&&◌, [], None, IfOk, false, true};
ghost use Rattle.posix_types.specs.declared.call.Who as whos;
ghost use Rattle.run_laws.specs.posix_spec.Scripted.{IsSetUp};
ghost use Rattle.run_laws.specs.world_view_laws.Views.{next_of};
ghost use Rattle.run_laws.specs.Between.{AreNextCalls};
ghost use Rattle.split_machine.specs.Events.{
  AreRunnable,
  HaveEnded,
  IsAbleBy,
  IsSetUpStep,
  IsStepped,
  IsUnderWay,
  seen,
  with_able,
};

use crate::events::caller_event;
use crate::outstanding::{Acted, Out};
use crate::rounds::checkpoint;
use pm_lines::Power;
use posix_types::Who;
use run_laws::NoMemory;
use schedule::Picker;
use split_world::{Ready, World};
use std::alloc::{AllocError, Global};

// Whether a caller can run, and whether its script has ended.
fn look(world: &World, who: Who) -> (bool, bool)
    requires usable { world.now.usable ≡ true }
    requires awake { world.now.lost ≡ false }
    requires next { AreNextCalls world.now }
    ensures able { IsAbleBy world.now who result.0 }
    ensures ended { result.1 ≡ true → next_of world.now who ≡ None }
    ensures goes_on { result.1 ≡ false → next_of world.now who ≢ None }
{
    match world.ready(who) {
        Ready::Yes => (true, false),
        Ready::Out => (true, false),
        Ready::ScriptEnd => (false, true),
        Ready::RoundOver => (false, false),
        Ready::Busy { .. } => (false, false),
    }
}

// A number is put behind others, if it is one that can run.
fn push_able(numbers: &mut Vec<u32>, able: bool, n: u32) -> Result<(), AllocError>
    ensures { IfOk result (λ done. numbers.new.items ≡ with_able able numbers.old.items n) }
{
    if able {
        numbers.push(n)?;
    }
    Ok(())
}

// Whether both hold.
fn both(one: bool, other: bool) -> bool
    ensures { result ≡ (one && other) }
{
    one && other
}

// Whether there are none.
fn has_none(numbers: &[u32]) -> bool
    ensures none { result ≡ true → numbers.now ≡ [] }
    ensures some { result ≡ false → numbers.now ≢ [] }
{
    numbers.is_empty()
}

// The threads that can run, by rising number, and whether the scripts of all have ended. It looks at each once.
fn look_round(alloc: Global, world: &World) -> Result<(Vec<u32>, bool), NoMemory>
    requires usable { world.now.usable ≡ true }
    requires awake { world.now.lost ≡ false }
    requires next { AreNextCalls world.now }
    ensures runnable { IfOk result (λ found. AreRunnable world.now found.0.items) }
    ensures ended { IfOk result (λ found. HaveEnded world.now found.1) }
{
    let mut numbers = Vec::with_capacity(alloc, 8)?;
    let mut all = true;
    for n in 0..world.threads() {
        let (able, ended) = look(world, Who::Thread(n));
        push_able(&mut numbers, able, n)?;
        all = both(all, ended);
    }
    Ok((numbers, all))
}

// A step of the set-up, which is not done.
fn set_up_step(
    world: &mut World,
    alloc: Global,
    out: &mut Out,
    power: &mut Power,
) -> Result<Acted, NoMemory>
    requires under_way { IsUnderWay world.old (seen out.old) power.old }
    requires not_done { ¬ IsSetUp world.old.scripts world.old.history (whos.Who.Thread 0) }
    ensures { IfOk result (IsSetUpStep world.old (seen out.old) world.new (seen out.new) power.old power.new) }
{
    let (able, _ended) = look(world, Who::Setup);
    if able {
        caller_event(world, alloc, out, Who::Setup, power)
    } else {
        checkpoint(world, alloc, out, power)
    }
}

// A step of the threads, once the set-up is done: none, where all calls have returned; the event of the thread that
// the order picks, of those that can run; or a Checkpoint, where none can.
fn thread_step(
    world: &mut World,
    alloc: Global,
    out: &mut Out,
    picker: &mut Picker,
    power: &mut Power,
) -> Result<Option<Acted>, NoMemory>
    requires under_way { IsUnderWay world.old (seen out.old) power.old }
    requires done { IsSetUp world.old.scripts world.old.history (whos.Who.Thread 0) }
    ensures { IfOk result (IsStepped world.old (seen out.old) picker.old
        world.new (seen out.new) picker.new power.old power.new) }
{
    let (numbers, all) = look_round(alloc, world)?;
    if all {
        return Ok(None);
    }
    if has_none(&numbers) {
        return Ok(Some(checkpoint(world, alloc, out, power)?));
    }
    let n = picker.pick(&numbers);
    Ok(Some(caller_event(world, alloc, out, Who::Thread(n), power)?))
}

/// The next step of a run, with the lines out: first those of the set-up, and then those of the threads.
pub(crate) fn step(
    world: &mut World,
    alloc: Global,
    out: &mut Out,
    picker: &mut Picker,
    power: &mut Power,
) -> Result<Option<Acted>, NoMemory>
    requires { IsUnderWay world.old (seen out.old) power.old }
    ensures { IfOk result (IsStepped world.old (seen out.old) picker.old
        world.new (seen out.new) picker.new power.old power.new) }
{
    if world.setup_done() {
        thread_step(world, alloc, out, picker, power)
    } else {
        Ok(Some(set_up_step(world, alloc, out, power)?))
    }
}
