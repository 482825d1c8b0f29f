//! A write begins.
ghost use Rattle.std.specs.Prelude.{◌≡◌, ◌^◌, length, true, MatchOption};
ghost use Rattle.world_parts.specs.pm_model.Powers.{is_on, Steps};
ghost use Rattle.call_laws.specs.write_begin.write_plan.AsksLaws.{call_of};
ghost use Rattle.world_parts.specs.Answers.{IsBegun};
ghost use Rattle.world_parts.specs.Seen.{seen, IsKept};
ghost use Rattle.world_begins.specs.Runs.{PutsNothing};
ghost use Rattle.world_begins.specs.Turns.{IsTurn};

use crate::laws;
use crate::turns::turns::{end_round, lose_call, needs_now};
use call_laws::{WriteBegun, begin_write, move_by};
use pm_lines::Power;
use posix_tables::outcomes::answer;
use posix_types::{Call, Data, Handle, Reply, Who};
use std::alloc::Global;
use world_parts::{Begun, JobOut, NoMemory, Over, Parts, add};

/// A write, as its call says it.
#[derive(Clone, Copy)]
pub struct Put<'a> {
    /// The handle.
    pub handle: Handle,
    /// The place of the first byte, if the call gives one; else it is where the handle stands.
    pub at: Option<u64>,
    /// The bytes, which are the call's own.
    pub bytes: &'a Data,
}

/// The write of a call; none, if the call puts no bytes.
pub fn put_of(call: &Call) -> Option<Put<'_>>
    ensures { MatchOption result (PutsNothing call.now)
        (λ put. call.now ≡ call_of put.handle put.at put.bytes.now) }
{
    match call {
        Call::Write(handle, bytes) => Some(Put {
            handle: *handle,
            at: None,
            bytes,
        }),
        Call::Pwrite(handle, offset, bytes) => Some(Put {
            handle: *handle,
            at: Some(*offset),
            bytes,
        }),
        Call::Mkdir(_)
        | Call::Rmdir(_)
        | Call::Unlink(_)
        | Call::Rename(_, _)
        | Call::Open(_, _, _)
        | Call::Close(_)
        | Call::Dup(_, _)
        | Call::Read(_, _)
        | Call::Pread(_, _, _)
        | Call::Seek(_, _, _)
        | Call::Truncate(_, _)
        | Call::Fsync(_)
        | Call::Stat(_)
        | Call::List(_) => None,
    }
}

// How many bytes these are.
fn count_of(bytes: &Data) -> u64
    ensures { result ≡ length bytes.now }
{
    bytes.len() as u64
}

/// A write begins: it returns, written in place where it is not logged, becomes a job, ends the round, or loses its power.
/// Where it writes in place, the holes of its file there are filled first; if only the staging has no room, they stay
/// filled. Its bytes are not copied but into the words of its job. All memory of a job is taken here.
///
/// # Errors
///
/// Out of memory: the World is only to be dropped.
///
/// # Steps
///
/// At most 2^21.
pub fn begin_put(
    p: &mut Parts,
    alloc: Global,
    who: Who,
    call: Call,
    power: &mut Power,
) -> Result<Begun, NoMemory>
    requires on { is_on power.old ≡ true }
    requires turn { IsTurn p.old who call }
    requires puts { PutsNothing call → ⊥ }
    ensures kept { p.new.usable ≡ true → IsKept p.new }
    ensures steps { Steps (2 ^ 21) power.old power.new }
    ensures begun { IsBegun who (seen p.old) (seen p.new) power.old power.new result }
{
    laws::jobs_need_what_their_calls_do();
    laws::kept_numbers_are_those_of_the_state();
    let needs = needs_now(p, who, &call);
    let Some(put) = put_of(&call) else {
        unreachable!();
    };
    match begin_write(
        alloc,
        &mut p.k,
        &p.tables,
        &mut p.staging,
        &mut p.files,
        who,
        p.mode,
        put.handle,
        put.at,
        put.bytes,
        needs,
        power,
    ) {
        Ok(WriteBegun::Answered(outcome)) => {
            add(p, who, call, outcome);
            Ok(Begun::Done)
        }
        Ok(WriteBegun::Written) => {
            let outcome = answer(Reply::Count(count_of(put.bytes)));
            move_by(&mut p.tables, &p.files, who, &call);
            add(p, who, call, outcome);
            Ok(Begun::Done)
        }
        Ok(WriteBegun::Job { job, blocks }) => {
            let draft = *job.draft();
            p.pending.push_reserved(JobOut {
                who,
                call,
                draft,
                blocks,
            });
            p.acts += 1;
            Ok(Begun::Job(job))
        }
        Ok(WriteBegun::RoundOver { need, room }) => {
            drop(call);
            end_round(p, need, room);
            Ok(Begun::RoundOver(Over::Space { need, room }))
        }
        Ok(WriteBegun::PowerLost) => {
            lose_call(p, who, call);
            Ok(Begun::PowerLost)
        }
        Err(_) => {
            drop(call);
            p.usable = false;
            Err(NoMemory {})
        }
    }
}
