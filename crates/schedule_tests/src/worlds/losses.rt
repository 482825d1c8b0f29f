//! The power goes between two events, and what comes behind it: jobs finish or are given up, and the crash.
ghost use Rattle.std.specs.Prelude.{◌<◌, IfOk, IfSome, IsSome, length};
ghost use Rattle.split_machine.specs.run_laws.Between.{Between, CanCrash};
ghost use Rattle.split_machine.specs.run_laws.pm_model.Cells.{AllHome};
ghost use Rattle.split_machine.specs.Events.{seen};
ghost use Rattle.schedule_tests.specs.Losses.{GivesWork, IsAfterLoss, LosesWork, MayFinish, MayGiveUp};

use pm_lines::Power;
use posix_types::Who;
use split_machine::{Crashed, Ended, Finished, Out, RoundLog, Work, World, crash, place_of};
use std::alloc::Global;
use test_kit::RowError;

/// The World is told that the power went.
pub(crate) fn lose(world: &mut World, out: &Out)
    requires between { Between world.old (seen out.now) }
    requires log { IsSome (seen out.now).log }
    ensures { IsAfterLoss world.new (seen out.now) }
{
    let _out = out;
    world.lose();
}

// The place of the job of a caller, if it has one out.
fn place_in(out: &Out, who: Who) -> Option<usize>
    ensures { IfSome result (λ place. place < length out.now.jobs.items) }
{
    place_of(&out.jobs, who)
}

// A job finishes, whose entry was durable before the power went.
fn finish_work(world: &mut World, work: Work, power: &mut Power) -> Result<(), RowError>
    requires { MayFinish world.old work }
    ensures { IfOk result (λ done. LosesWork world.old world.new power.new work) }
{
    match work {
        Work::Persisted(job, slot) => match world.finish(job, slot, power) {
            Finished::PowerLost => Ok(()),
            Finished::Done => Err(RowError::Unlike),
        },
        _ => Err(RowError::Misspelled),
    }
}

/// The job of a caller finishes, whose entry was durable before the power went.
pub(crate) fn finish_after(
    world: &mut World,
    out: &mut Out,
    who: Who,
    power: &mut Power,
) -> Result<(), RowError>
    requires { IsAfterLoss world.old (seen out.old) }
    ensures { IfOk result (λ done. IsAfterLoss world.new (seen out.new)) }
{
    let Some(place) = place_in(out, who) else {
        return Err(RowError::Misspelled);
    };
    let held = out.jobs.remove(place);
    finish_work(world, held.work, power)
}

// A filled job claims a slot, finds none left, and is given up.
fn give_work(world: &mut World, log: &mut RoundLog, work: Work) -> Result<(), RowError>
    requires { MayGiveUp world.old log.old work }
    ensures { IfOk result (λ done. GivesWork world.old world.new log.old log.new work) }
{
    match work {
        Work::Filled(job) => match log.claim() {
            Err(full) => {
                world.give_up(job, full);
                Ok(())
            }
            Ok(_) => Err(RowError::Unlike),
        },
        _ => Err(RowError::Misspelled),
    }
}

/// The job of a caller claims a slot, finds none left, and is given up.
pub(crate) fn give_up_after(world: &mut World, out: &mut Out, who: Who) -> Result<(), RowError>
    requires { IsAfterLoss world.old (seen out.old) }
    ensures { IfOk result (λ done. IsAfterLoss world.new (seen out.new)) }
{
    let Some(place) = place_in(out, who) else {
        return Err(RowError::Misspelled);
    };
    let Some(log) = &mut out.log else {
        return Err(RowError::Misspelled);
    };
    let held = out.jobs.remove(place);
    give_work(world, log, held.work)
}

/// What the loss leaves, of which nothing is lent.
pub(crate) fn crashed(alloc: Global, world: World, out: Out) -> Result<Crashed, RowError>
    requires { CanCrash world (seen out) }
    ensures { IfOk result (λ left. AllHome left.pm) }
{
    let power = Power::always();
    match crash(alloc, world, out, &power) {
        Ok(Ended::Lost(left)) => Ok(left),
        Ok(Ended::Whole { .. }) => Err(RowError::NotRun),
        Err(_) => Err(RowError::NotRun),
    }
}
