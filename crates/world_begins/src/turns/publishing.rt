//! What is staged of the file of a call is published before it.
ghost use Rattle.std.specs.Prelude.{◌≡◌, ◌+◌, ◌^◌, true, if◌then◌else◌};
ghost use Rattle.world_parts.specs.pm_model.Powers.{is_on, Steps};
ghost use Rattle.world_begins.specs.Turns.{publishes_by, IsPublishedFirst, IsToPublish, IsTurn};

use crate::laws;
use crate::turns::turns::lose_call;
use call_laws::publish_file;
use pm_lines::Power;
use posix_types::{Call, Who};
use std::alloc::Global;
use world_parts::{Commit, NoMemory, Parts, waits_for};

// Whether what is staged of its file has to be published before the call: that of an `fsync`, of a `truncate`, and of
// an `open` that cuts.
fn publishes(call: &Call) -> bool
    ensures { result ≡ publishes_by call.now }
{
    match call {
        Call::Fsync(_) | Call::Truncate(..) => true,
        Call::Open(_, _, flags) => flags.truncate,
        _ => false,
    }
}

// The file of which something is to be published before the call, if there is one.
fn file_to_publish(p: &Parts, who: Who, call: &Call) -> Option<u32>
    requires turn { IsTurn p.now who call.now }
    ensures { IsToPublish who call.now p.now result }
{
    if !publishes(call) {
        return None;
    }
    match waits_for(&p.k, &p.tables, who, call) {
        Some(ino) => {
            if p.files.overlay(ino).runs().is_empty() {
                None
            } else {
                Some(ino)
            }
        }
        None => None,
    }
}

/// What is staged of the file of a call is published before it, where the call wants that. It gives the call back, or the
/// call lost its power.
///
/// # Errors
///
/// Out of memory: the World is only to be dropped.
///
/// # Steps
///
/// At most 2^25 + 2^15 where the call wants that, and else none.
pub fn publish_first(
    p: &mut Parts,
    alloc: Global,
    who: Who,
    call: Call,
    power: &mut Power,
) -> Result<Option<Call>, NoMemory>
    requires on { is_on power.old ≡ true }
    requires turn { IsTurn p.old who call }
    ensures steps { Steps (if publishes_by call then 2 ^ 25 + 2 ^ 15 else 0) power.old power.new }
    ensures first { IsPublishedFirst who call p.old p.new power.new result }
{
    laws::what_stands_may_be_published();
    let Some(ino) = file_to_publish(p, who, &call) else {
        return Ok(Some(call));
    };
    match publish_file(alloc, &mut p.k, &mut p.files, ino, power) {
        Ok(Commit::Done) => Ok(Some(call)),
        Ok(Commit::PowerLost) => {
            lose_call(p, who, call);
            Ok(None)
        }
        Err(_) => {
            drop(call);
            p.usable = false;
            Err(NoMemory {})
        }
    }
}
