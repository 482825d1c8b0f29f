//! The events of a job, by how far it came.
ghost use Rattle.std.specs.Prelude.{◌≡◌, ◌<◌, length, None, Some, false, true};
ghost use Rattle.run_laws.specs.oplog_entry.EntryLines.{IsSingle};
ghost use Rattle.run_laws.specs.oplog_entry.LogLines.{line_at};
ghost use Rattle.run_laws.specs.pm_model.Powers.{is_on, Supply};
ghost use Rattle.run_laws.specs.round_log.Rounds.{RoundView};
ghost use Rattle.run_laws.specs.world_view_laws.Jobs.{IsOfWorld};
ghost use Rattle.run_laws.specs.world_view_laws.Views.{WorldView};
ghost use Rattle.run_laws.specs.declared.held.Work as works;
ghost use Rattle.run_laws.specs.EventsLaws.{IsHere};
ghost use Rattle.split_machine.specs.Works.{IsReadyFor, IsWorked};

use pm_lines::Power;
use run_laws::{Filled, FilledJob, Job, RoundLog, Work};
use split_world::{Finished, World};

// A job is filled.
fn fill_event(job: Job, power: &mut Power) -> (Option<Work>, bool)
    requires { job.lost ≡ true → is_on power.old ≡ false }
    ensures { (w : WorldView) (log : RoundView)
        → IsWorked w w log log power.old power.new (works.Work.Began job) result.0 result.1 }
{
    let _draft = job.draft();
    match job.fill(power) {
        Filled::Ready(job) => (Some(Work::Filled(job)), true),
        Filled::PowerLost(job) => (Some(Work::Began(job)), false),
    }
}

// A filled job claims a slot; or none is left, and it is given up.
fn claim_event(world: &mut World, log: &mut RoundLog, job: FilledJob) -> (Option<Work>, bool)
    requires { IsHere world.old log.old job }
    ensures { (power : Supply)
        → IsWorked world.old world.new log.old log.new power power (works.Work.Filled job) result.0 result.1 }
{
    match log.claim() {
        Ok(slot) => (Some(Work::Claimed(job, slot)), true),
        Err(full) => {
            world.give_up(job, full);
            (None, true)
        }
    }
}

// The entry of a job is stored into the line of its slot.
fn store_event(
    log: &mut RoundLog,
    job: FilledJob,
    slot: u32,
    power: &mut Power,
) -> (Option<Work>, bool)
    requires slot { slot < length log.old.lines }
    requires single { IsSingle (line_at log.old.lines slot).cells }
    ensures { (w : WorldView)
        → IsWorked w w log.old log.new power.old power.new (works.Work.Claimed job slot) result.0 result.1 }
{
    log.store(slot, job.draft(), power);
    (Some(Work::Stored(job, slot)), power.on())
}

// It is made durable.
fn persist_event(
    log: &mut RoundLog,
    job: FilledJob,
    slot: u32,
    power: &mut Power,
) -> (Option<Work>, bool)
    requires { slot < length log.old.lines }
    ensures { (w : WorldView)
        → IsWorked w w log.old log.new power.old power.new (works.Work.Stored job slot) result.0 result.1 }
{
    if log.persist(slot, power) {
        (Some(Work::Persisted(job, slot)), true)
    } else {
        (Some(Work::Stored(job, slot)), false)
    }
}

// Its call finishes.
fn finish_event(
    world: &mut World,
    job: FilledJob,
    slot: u32,
    power: &mut Power,
) -> (Option<Work>, bool)
    requires job { IsOfWorld world.old job }
    requires usable { world.old.usable ≡ true }
    requires out { world.old.lines_out ≡ true }
    requires slot { slot < world.old.geometry.log }
    ensures { (log : RoundView)
        → IsWorked world.old world.new log log power.old power.new (works.Work.Persisted job slot) result.0 result.1 }
{
    match world.finish(job, slot, power) {
        Finished::Done => (None, true),
        Finished::PowerLost => (None, false),
    }
}

/// The next event of a job, as far as it came, with whether the power lasted: its work behind it, or none, where it
/// finished or was given up.
pub(crate) fn work_event(
    world: &mut World,
    log: &mut RoundLog,
    work: Work,
    power: &mut Power,
) -> (Option<Work>, bool)
    requires { IsReadyFor world.old log.old power.old work }
    ensures { IsWorked world.old world.new log.old log.new power.old power.new work result.0 result.1 }
{
    match work {
        Work::Began(job) => fill_event(job, power),
        Work::Filled(job) => claim_event(world, log, job),
        Work::Claimed(job, slot) => store_event(log, job, slot, power),
        Work::Stored(job, slot) => persist_event(log, job, slot, power),
        Work::Persisted(job, slot) => finish_event(world, job, slot, power),
    }
}
