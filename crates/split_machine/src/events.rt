//! The events of a caller, one a call.
ghost use Rattle.std.specs.Prelude.{◌≡◌, ◌≤◌, ◌++◌, ◌∷◌, [], IfOk, Some, length, slice_get};
ghost use Rattle.run_laws.specs.posix_spec.Scripted.{IsSetUp};
ghost use Rattle.run_laws.specs.EventsLaws as law;
ghost use Rattle.run_laws.specs.declared.held.Held as held;
ghost use Rattle.run_laws.specs.declared.held.Work as works;
ghost use Rattle.split_machine.specs.Events.{
  acted_by,
  HasJobAt,
  IsAble,
  IsActed,
  IsToBegin,
  IsUnderWay,
  seen,
  with_back,
};

use crate::outstanding::{Acted, Out, place_of};
use crate::work::work_event;
use pm_lines::Power;
use posix_types::Who;
use run_laws::{Held, Job, NoMemory, Work};
use split_world::{Begun, World};
use std::alloc::{AllocError, Global};

// Whether the power lasted.
fn acted(lasted: bool) -> Acted
    ensures { result ≡ acted_by lasted }
{
    if lasted {
        Acted::Event
    } else {
        Acted::PowerLost
    }
}

// The work of a job is back at its place, if some is left.
fn put_back(
    jobs: &mut Vec<Held>,
    place: usize,
    who: Who,
    work: Option<Work>,
) -> Result<(), AllocError>
    requires { place ≤ length jobs.old.items }
    ensures { IfOk result (λ done. jobs.new.items ≡ with_back jobs.old.items place who work) }
{
    if let Some(work) = work {
        jobs.insert(place, Held { who, work })?;
    }
    Ok(())
}

// A job that began stands behind the others.
fn push_job(jobs: &mut Vec<Held>, who: Who, job: Job) -> Result<(), AllocError>
    ensures { IfOk result (λ done. jobs.new.items ≡ jobs.old.items ++ law.held who (works.Work.Began job) ∷ []) }
{
    jobs.push(Held {
        who,
        work: Work::Began(job),
    })?;
    Ok(())
}

/// The next event of the job at a place.
pub(crate) fn job_event(
    world: &mut World,
    out: &mut Out,
    place: usize,
    power: &mut Power,
) -> Result<Acted, NoMemory>
    requires { HasJobAt world.old (seen out.old) place power.old }
    ensures { (h : held.Held) → slice_get out.old.jobs.items place ≡ Some h
        → IfOk result (IsActed h.who world.old (seen out.old) world.new (seen out.new) power.old power.new) }
{
    let Some(log) = &mut out.log else {
        unreachable!()
    };
    let held = out.jobs.remove(place);
    let who = held.who;
    let (work, lasted) = work_event(world, log, held.work, power);
    put_back(&mut out.jobs, place, who, work)?;
    Ok(acted(lasted))
}

/// A caller begins its next call.
pub(crate) fn begin_event(
    world: &mut World,
    alloc: Global,
    out: &mut Out,
    who: Who,
    power: &mut Power,
) -> Result<Acted, NoMemory>
    requires { IsToBegin who world.old (seen out.old) }
    ensures { IfOk result (IsActed who world.old (seen out.old) world.new (seen out.new) power.old power.new) }
{
    match world.begin(alloc, who, power)? {
        Begun::Done => Ok(Acted::Event),
        Begun::Job(job) => {
            push_job(&mut out.jobs, who, job)?;
            Ok(Acted::Event)
        }
        Begun::RoundOver(_) => Ok(Acted::RoundOver),
        Begun::PowerLost => Ok(Acted::PowerLost),
        Begun::Busy { .. } => unreachable!(),
        Begun::ScriptEnd => unreachable!(),
    }
}

/// The next event of a caller that can run: of its job, if it has one out, or its next call begins.
pub fn caller_event(
    world: &mut World,
    alloc: Global,
    out: &mut Out,
    who: Who,
    power: &mut Power,
) -> Result<Acted, NoMemory>
    requires under_way { IsUnderWay world.old (seen out.old) power.old }
    requires set_up { IsSetUp world.old.scripts world.old.history who }
    requires able { IsAble world.old who }
    ensures { IfOk result (IsActed who world.old (seen out.old) world.new (seen out.new) power.old power.new) }
{
    match place_of(&out.jobs, who) {
        Some(place) => job_event(world, out, place, power),
        None => begin_event(world, alloc, out, who, power),
    }
}
