//! What is counted at the turn of a call, and what a call leaves that ends the round or loses its power.
ghost use Rattle.std.specs.Prelude.{◌≡◌, ◌<◌, ◌+◌, ◌^◌, true, Some, sum_by};
ghost use Rattle.call_laws.specs.write_begin.write_plan.Asks.{HaveLines};
ghost use Rattle.world_begins.specs.Turns.{IsTurn, needs_by};

use crate::laws;
use call_laws::need_of;
use posix_types::{Call, Mode, Who};
use world_parts::{FileTable, JobOut, OpenFiles, Over, Parts, Unfinished};

// How many blocks the jobs that are out need together.
fn needs_out(mode: Mode, tables: &OpenFiles, files: &FileTable, pending: &[JobOut]) -> u64
    requires lines { HaveLines tables.now.tables files.now }
    requires small { needs_by mode tables.now.tables files.now pending.now < 2 ^ 64 }
    ensures { result ≡ needs_by mode tables.now.tables files.now pending.now }
{
    let mut sum = 0;
    for job in pending {
        sum += need_of(mode, tables, files, job.who, &job.call);
    }
    sum
}

/// How many blocks the jobs that are out need, at the turn of a call.
pub fn needs_now(p: &Parts, who: Who, call: &Call) -> u64
    requires { IsTurn p.now who call.now }
    ensures { result ≡ needs_by p.now.mode p.now.tables.tables p.now.files p.now.pending.items }
{
    laws::jobs_need_what_their_calls_do();
    laws::kept_numbers_are_those_of_the_state();
    needs_out(p.mode, &p.tables, &p.files, &p.pending)
}

/// The call lost its power: it is the unfinished one, and that is one act.
pub fn lose_call(p: &mut Parts, who: Who, call: Call)
    requires { p.old.acts + 1 < 2 ^ 64 }
    ensures { p.new ≡ record p.old {
      unfinished = Some (record { who = who; call = call });
      acts = p.old.acts + 1;
      lost = true;
    } }
{
    drop(p.unfinished.replace(Unfinished { who, call }));
    p.acts += 1;
    p.lost = true;
}

/// The round is over for want of space: it needed this many blocks and found that many. That is one act.
pub fn end_round(p: &mut Parts, need: u64, room: u64)
    requires { p.old.acts + 1 < 2 ^ 64 }
    ensures { p.new ≡ record p.old { over = Some (Over.Space need room); acts = p.old.acts + 1 } }
{
    p.over = Some(Over::Space { need, room });
    p.acts += 1;
}
