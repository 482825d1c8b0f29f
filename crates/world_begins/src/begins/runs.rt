//! A call that puts no bytes runs.
ghost use Rattle.std.specs.Prelude.{◌≡◌, ◌^◌, true, Some, Ok, if◌then◌else◌};
ghost use Rattle.pm_lines.specs.pm_model.Powers.{is_on, Steps};
ghost use Rattle.world_parts.specs.posix_spec.Afforded.{moves_data};
ghost use Rattle.posix_types.specs.declared.call.Call.{Call};
ghost use Rattle.world_begins.specs.Runs.{HasRoom, IsBegunNow, IsRoomAsked, PutsNothing};
ghost use Rattle.world_parts.specs.Answers.{IsBegun};
ghost use Rattle.world_parts.specs.in_flight.Costs.{most_of};
ghost use Rattle.world_parts.specs.world_view_laws.Begins.{Publishes};
ghost use Rattle.world_parts.specs.world_view_laws.file_calls.Built.{CutsNothing, IsBuilt};
ghost use Rattle.world_parts.specs.world_view_laws.file_calls.Answers.{most_steps};
ghost use Rattle.world_parts.specs.Seen.{seen, IsKept};
ghost use Rattle.call_laws.specs.file_truncate.Truncates.{HasNothingStaged};
ghost use Rattle.world_begins.specs.Turns.{IsBareFor, IsTurn};

use crate::laws;
use crate::turns::{
    Begun, NoMemory, Over, Parts, Told, Truncated, add, end_round, fsync, lacks_room, lose_call,
    needs_now, publish_first, run_call, truncate_file,
};
use pm_lines::Power;
use posix_types::{Call, Handle, Who};
use std::alloc::Global;

// Whether the jobs that are out leave a call that puts no bytes too little room: the blocks that it needs, and those that
// are left. Only a `truncate` needs any.
fn room_lacks(p: &Parts, who: Who, call: &Call) -> Option<(u64, u64)>
    requires turn { IsTurn p.now who call.now }
    requires plain { PutsNothing call.now }
    ensures { IsRoomAsked (seen p.now) who call.now result }
{
    let Call::Truncate(handle, size) = call else {
        return None;
    };
    laws::jobs_need_what_their_calls_do();
    let needs = needs_now(p, who, call);
    lacks_room(&p.k, &p.tables, &p.files, who, *handle, *size, needs)
}

// A `truncate`, of whose file nothing is staged, and for which there is room.
fn run_truncate(
    p: &mut Parts,
    alloc: Global,
    who: Who,
    handle: Handle,
    size: u64,
    power: &mut Power,
) -> Result<Begun, NoMemory>
    requires on { is_on power.old ≡ true }
    requires turn { IsTurn p.old who (Call.Truncate handle size) }
    requires bare { HasNothingStaged who handle p.old.tables.tables p.old.files }
    requires enough { HasRoom (seen p.old) who (Call.Truncate handle size) }
    ensures kept { p.new.usable ≡ true → IsKept p.new }
    ensures steps { Steps (2 ^ 16) power.old power.new }
    ensures begun { IsBegunNow who (seen p.old) (seen p.new) power.old power.new result }
{
    laws::jobs_need_what_their_calls_do();
    let call = Call::Truncate(handle, size);
    let needs = needs_now(p, who, &call);
    match truncate_file(
        alloc,
        &mut p.k,
        &p.tables,
        &mut p.files,
        who,
        handle,
        size,
        needs,
        power,
    ) {
        Ok(Truncated::Answered(outcome)) => {
            add(p, who, call, outcome);
            Ok(Begun::Done)
        }
        Ok(Truncated::RoundOver { .. }) => unreachable!(),
        Ok(Truncated::PowerLost) => {
            lose_call(p, who, call);
            Ok(Begun::PowerLost)
        }
        Err(error) => {
            drop(call);
            p.usable = false;
            Err(error)
        }
    }
}

// An `fsync`: what was to be published is published.
fn run_fsync(p: &mut Parts, who: Who, handle: Handle, power: &mut Power) -> Begun
    requires on { is_on power.old ≡ true }
    requires turn { IsTurn p.old who (Call.Fsync handle) }
    requires published { Publishes who (Call.Fsync handle) (seen p.old) (seen p.old) }
    ensures kept { IsKept p.new }
    ensures spared { power.new ≡ power.old }
    ensures begun { IsBegunNow who (seen p.old) (seen p.new) power.old power.new (Ok result) }
{
    match fsync(&p.tables, who, handle) {
        Told::Answered(outcome) => {
            add(p, who, Call::Fsync(handle), outcome);
            Begun::Done
        }
        Told::PowerLost => unreachable!(),
    }
}

// Any other call that puts no bytes.
fn run_other(
    p: &mut Parts,
    alloc: Global,
    who: Who,
    call: Call,
    power: &mut Power,
) -> Result<Begun, NoMemory>
    requires on { is_on power.old ≡ true }
    requires turn { IsTurn p.old who call }
    requires built { IsBuilt call }
    requires bare { CutsNothing call p.old.k p.old.files }
    requires published { (new : _) → Publishes who call (seen p.old) new }
    ensures kept { p.new.usable ≡ true → IsKept p.new }
    ensures steps { Steps (most_steps call) power.old power.new }
    ensures begun { IsBegunNow who (seen p.old) (seen p.new) power.old power.new result }
{
    match run_call(
        alloc,
        &mut p.k,
        &mut p.tables,
        &mut p.files,
        who,
        &call,
        power,
    ) {
        Ok(Told::Answered(outcome)) => {
            add(p, who, call, outcome);
            Ok(Begun::Done)
        }
        Ok(Told::PowerLost) => {
            lose_call(p, who, call);
            Ok(Begun::PowerLost)
        }
        Err(error) => {
            drop(call);
            p.usable = false;
            Err(error)
        }
    }
}

// A call that puts no bytes, of whose file nothing is left to be published, and for which there is room.
fn run_now(
    p: &mut Parts,
    alloc: Global,
    who: Who,
    call: Call,
    power: &mut Power,
) -> Result<Begun, NoMemory>
    requires on { is_on power.old ≡ true }
    requires turn { IsTurn p.old who call }
    requires plain { PutsNothing call }
    requires cuts { CutsNothing call p.old.k p.old.files }
    requires bare { IsBareFor who call p.old }
    requires enough { HasRoom (seen p.old) who call }
    requires published { Publishes who call (seen p.old) (seen p.old) }
    ensures kept { p.new.usable ≡ true → IsKept p.new }
    ensures steps { Steps (if moves_data call then 2 ^ 16 else 512) power.old power.new }
    ensures begun { IsBegunNow who (seen p.old) (seen p.new) power.old power.new result }
{
    match call {
        Call::Truncate(handle, size) => run_truncate(p, alloc, who, handle, size, power),
        Call::Fsync(handle) => Ok(run_fsync(p, who, handle, power)),
        other => run_other(p, alloc, who, other, power),
    }
}

// A call that puts no bytes. Its room is asked for before anything is done.
pub(crate) fn run_whole(
    p: &mut Parts,
    alloc: Global,
    who: Who,
    call: Call,
    power: &mut Power,
) -> Result<Begun, NoMemory>
    requires on { is_on power.old ≡ true }
    requires turn { IsTurn p.old who call }
    requires plain { PutsNothing call }
    ensures kept { p.new.usable ≡ true → IsKept p.new }
    ensures steps { Steps (most_of (seen p.old).start.mode (Some call)) power.old power.new }
    ensures begun { IsBegun who (seen p.old) (seen p.new) power.old power.new result }
{
    if let Some((need, room)) = room_lacks(p, who, &call) {
        drop(call);
        end_round(p, need, room);
        return Ok(Begun::RoundOver(Over::Space { need, room }));
    }
    match publish_first(p, alloc, who, call, power) {
        Ok(Some(call)) => run_now(p, alloc, who, call, power),
        Ok(None) => Ok(Begun::PowerLost),
        Err(error) => Err(error),
    }
}
