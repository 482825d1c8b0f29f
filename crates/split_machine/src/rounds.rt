//! Rounds: one begins, and ends at a Checkpoint.
ghost use Rattle.std.specs.Prelude.{◌≡◌, ◌≢◌, ◌<◌, [], length, None, IfOk};
ghost use Rattle.run_laws.specs.posix_spec.Scripted.{call_count};
ghost use Rattle.run_laws.specs.Between.{Between};
ghost use Rattle.split_machine.specs.Events.{IsOpen, IsSetUpStep, IsUnderWay, seen};

use crate::outstanding::{Acted, Out};
use pm_lines::Power;
use run_laws::{Commit, NoMemory, RoundLog};
use split_world::World;
use std::alloc::Global;

/// The lines go out, if they are at home.
pub fn open_round(world: &mut World, alloc: Global, out: &mut Out) -> Result<(), NoMemory>
    requires { Between world.old (seen out.old) }
    ensures { IfOk result (λ done. IsOpen world.old (seen out.old) world.new (seen out.new)) }
{
    if out.log.is_some() {
        return Ok(());
    }
    let (lines, base) = world.begin_round(alloc)?;
    out.log = Some(RoundLog::open(lines, base));
    Ok(())
}

/// A Checkpoint: the round is over, no job is out, and calls are left.
pub(crate) fn checkpoint(
    world: &mut World,
    alloc: Global,
    out: &mut Out,
    power: &mut Power,
) -> Result<Acted, NoMemory>
    requires under_way { IsUnderWay world.old (seen out.old) power.old }
    requires over { world.old.over ≢ None }
    requires none_out { out.old.jobs.items ≡ [] }
    requires left { length world.old.history < call_count world.old.scripts }
    ensures { IfOk result (IsSetUpStep world.old (seen out.old) world.new (seen out.new) power.old power.new) }
{
    let Some(log) = out.log.take() else {
        unreachable!()
    };
    match world.checkpoint(alloc, log.close(), power)? {
        Commit::Done => Ok(Acted::Event),
        Commit::PowerLost => Ok(Acted::PowerLost),
    }
}
