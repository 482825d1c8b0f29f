//! The next call of a caller begins.
ghost use Rattle.std.specs.Prelude.{◌≡◌, ◌<◌, ◌+◌, ◌^◌, false, true, Some, None, IfOk, length, Ok};
ghost use Rattle.world_parts.specs.crash_spec.Busy.{is_busy};
ghost use Rattle.pm_lines.specs.pm_model.Powers.{is_on, Steps, Supply};
ghost use Rattle.world_parts.specs.posix_spec.Scripted.{IsSetUp};
ghost use Rattle.world_begins.specs.Rooms.{HasRoomInAll, KeepsItems};
ghost use Rattle.world_parts.specs.Answers.{IsBegun};
ghost use Rattle.world_parts.specs.in_flight.Costs.{most_of};
ghost use Rattle.world_parts.specs.world_view_laws.Begins.{LosesCall};
ghost use Rattle.world_parts.specs.world_view_laws.Views.{files_out, next_of, state_of, HasNone};
ghost use Rattle.world_parts.specs.Seen.{seen, HasRoomForOne, IsKept};
ghost use Rattle.world_begins.specs.Turns.{IsTurn};

use crate::begins::runs::run_whole;
use crate::turns::{
    Begun, JobOut, NoMemory, Parts, begin_put, busy_on, call_at, calls_made, lose_call, lose_one,
    put_of,
};
use layout_model::Draft;
use pm_lines::Power;
use posix_types::{Call, Item, Who};
use std::alloc::Global;

// The next call of a caller, which nothing keeps waiting. All memory that its end takes is there.
fn begin_call(
    p: &mut Parts,
    alloc: Global,
    who: Who,
    call: Call,
    power: &mut Power,
) -> Result<Begun, NoMemory>
    requires on { is_on power.old ≡ true }
    requires turn { IsTurn p.old who call }
    ensures kept { p.new.usable ≡ true → IsKept p.new }
    ensures steps { Steps (most_of (seen p.old).start.mode (Some call)) power.old power.new }
    ensures begun { IsBegun who (seen p.old) (seen p.new) power.old power.new result }
{
    match put_of(&call) {
        Some(_put) => begin_put(p, alloc, who, call, power),
        None => run_whole(p, alloc, who, call, power),
    }
}

// Room for the end of one job more: an item and a claim for each, the job, and a call for each and one more.
fn reserve_one(
    history: &mut Vec<Item>,
    claims: &mut Vec<(u64, Draft)>,
    pending: &mut Vec<JobOut>,
    spare: &mut Vec<(Who, Call)>,
) -> Result<(), NoMemory>
    requires few { length pending.old.items + 2 < 2 ^ 32 }
    ensures history { KeepsItems history.old history.new }
    ensures claims { KeepsItems claims.old claims.new }
    ensures pending { KeepsItems pending.old pending.new }
    ensures spare { KeepsItems spare.old spare.new }
    ensures room { IfOk result (λ _. HasRoomInAll history.new claims.new pending.new spare.new) }
{
    let more = pending.len() + 1;
    history.reserve(more)?;
    claims.reserve(more)?;
    pending.reserve(1)?;
    spare.reserve(more + 1)?;
    Ok(())
}

// There is room for the end of one job more.
fn make_room(p: &mut Parts) -> Result<(), NoMemory>
    requires kept { IsKept p.old }
    ensures kept { IsKept p.new }
    ensures view { seen p.new ≡ seen p.old }
    ensures room { IfOk result (λ _. HasRoomForOne p.new) }
{
    reserve_one(&mut p.history, &mut p.claims, &mut p.pending, &mut p.spare)
}

// The next call of a caller, which nothing keeps waiting, while the round goes on.
fn begin_free(
    p: &mut Parts,
    alloc: Global,
    who: Who,
    call: Call,
    power: &mut Power,
) -> Result<Begun, NoMemory>
    requires on { is_on power.old ≡ true }
    requires kept { IsKept p.old }
    requires usable { p.old.usable ≡ true }
    requires awake { p.old.lost ≡ false }
    requires out { p.old.lines_out ≡ true }
    requires next { next_of (seen p.old) who ≡ Some call }
    requires none { HasNone (seen p.old) who }
    requires set_up { IsSetUp p.old.scripts p.old.history.items who }
    requires going { p.old.over ≡ None }
    requires idle { is_busy (state_of (seen p.old)) (files_out (seen p.old)) (who, call) ≡ false }
    ensures kept { p.new.usable ≡ true → IsKept p.new }
    ensures steps { Steps (most_of (seen p.old).start.mode (Some call)) power.old power.new }
    ensures begun { IsBegun who (seen p.old) (seen p.new) power.old power.new result }
{
    match make_room(p) {
        Ok(()) => begin_call(p, alloc, who, call, power),
        Err(error) => {
            drop(call);
            Err(error)
        }
    }
}

// The next call of a caller, while the power is on and was not lost.
fn begin_on(
    p: &mut Parts,
    alloc: Global,
    who: Who,
    call: Call,
    power: &mut Power,
) -> Result<Begun, NoMemory>
    requires on { is_on power.old ≡ true }
    requires kept { IsKept p.old }
    requires usable { p.old.usable ≡ true }
    requires awake { p.old.lost ≡ false }
    requires out { p.old.lines_out ≡ true }
    requires next { next_of (seen p.old) who ≡ Some call }
    requires none { HasNone (seen p.old) who }
    requires set_up { IsSetUp p.old.scripts p.old.history.items who }
    ensures kept { p.new.usable ≡ true → IsKept p.new }
    ensures steps { Steps (most_of (seen p.old).start.mode (Some call)) power.old power.new }
    ensures begun { IsBegun who (seen p.old) (seen p.new) power.old power.new result }
{
    match p.over {
        Some(over) => {
            drop(call);
            Ok(Begun::RoundOver(over))
        }
        None => match busy_on(p, who, &call) {
            Some((ino, holder)) => {
                drop(call);
                Ok(Begun::Busy { ino, holder })
            }
            None => begin_free(p, alloc, who, call, power),
        },
    }
}

// The next call of a caller lost its power before it did anything.
fn begin_off(p: &mut Parts, who: Who, call: Call)
    requires kept { IsKept p.old }
    requires awake { p.old.lost ≡ false }
    requires next { next_of (seen p.old) who ≡ Some call }
    requires none { HasNone (seen p.old) who }
    requires set_up { IsSetUp p.old.scripts p.old.history.items who }
    ensures kept { IsKept p.new }
    ensures loses { (power : Supply) → is_on power ≡ false
        → LosesCall who (seen p.old) (seen p.new) power }
{
    lose_call(p, who, call);
}

// The script of a caller has ended. Where the power is found off, that is one act.
fn end_script(p: &mut Parts, who: Who, power: &mut Power) -> Begun
    requires kept { IsKept p.old }
    requires awake { p.old.lost ≡ false }
    requires next { next_of (seen p.old) who ≡ None }
    ensures kept { IsKept p.new }
    ensures spared { power.new ≡ power.old }
    ensures begun { IsBegun who (seen p.old) (seen p.new) power.old power.new (Ok result) }
{
    if power.on() {
        return Begun::ScriptEnd;
    }
    lose_one(p);
    Begun::PowerLost
}

/// The next call of a caller, if its script has one left. The lines are out, the caller has no job out, and the set-up is
/// done before a thread begins.
///
/// # Errors
///
/// Out of memory: nothing was done, or the World is only to be dropped.
///
/// # Steps
///
/// At most 2^26 where the call may move data, and else 512.
pub fn begin_next(
    p: &mut Parts,
    alloc: Global,
    who: Who,
    power: &mut Power,
) -> Result<Begun, NoMemory>
    requires kept { IsKept p.old }
    requires usable { p.old.usable ≡ true }
    requires awake { p.old.lost ≡ false }
    requires out { p.old.lines_out ≡ true }
    requires none { HasNone (seen p.old) who }
    requires set_up { IsSetUp p.old.scripts p.old.history.items who }
    ensures kept { p.new.usable ≡ true → IsKept p.new }
    ensures steps { Steps (most_of (seen p.old).start.mode (next_of (seen p.old) who)) power.old power.new }
    ensures begun { IsBegun who (seen p.old) (seen p.new) power.old power.new result }
{
    match call_at(&p.scripts, who, calls_made(&p.counters, who)) {
        Err(_) => Err(NoMemory {}),
        Ok(None) => Ok(end_script(p, who, power)),
        Ok(Some(call)) => {
            if power.on() {
                begin_on(p, alloc, who, call, power)
            } else {
                begin_off(p, who, call);
                Ok(Begun::PowerLost)
            }
        }
    }
}
