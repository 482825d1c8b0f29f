//! What a worker does inside the turn: it enters, makes one call of the World, and leaves.
ghost use Rattle.std.specs.Prelude.{◌≡◌, ◌≢◌, ◌≤◌, ◌<◌, ◌+◌, ◌*◌, ◌^◌, ℕ, length, None, Some};
ghost use Rattle.ruled_turn.specs.Passes.{outside_pass};
ghost use Rattle.thread_laws.specs.Hands.{HandView};
ghost use Rattle.thread_laws.specs.MovesLaws.{next_by, returned_by};
ghost use Rattle.thread_laws.specs.States.{HasFilledJob, IsIdle};
ghost use Rattle.thread_laws.specs.Works.{HasDropped, HasEnded, HasLooked, HasTold};
ghost use Rattle.thread_laws.specs.declared.works.Worked as ends;

use crate::turns::{HandPass, Held, WorldTurn};
use oplog_tail::Full;
use posix_types::Who;
use split_world::{Begun, Finished};
use std::alloc::Global;
use std::sync::Wait;
use thread_laws::{FilledJob, Next, Worked, each_answer_may_be_left};

// How a call that began goes on.
fn next_of(begun: Begun) -> Next
    ensures { result ≡ next_by begun }
{
    match begun {
        Begun::Done => Next::On,
        Begun::Job(job) => Next::Job(job),
        Begun::Busy { .. } => Next::Wait,
        Begun::RoundOver(_) | Begun::PowerLost | Begun::ScriptEnd => Next::Over,
    }
}

// Whether a job returned.
fn has_returned(finished: Finished) -> bool
    ensures { result ≡ returned_by finished }
{
    match finished {
        Finished::Done => true,
        Finished::PowerLost => false,
    }
}

// Begins the next call of a caller. Where memory runs out in it, the World is gone for all.
pub(crate) fn begin_next<R: Wait>(
    rt: &R,
    alloc: Global,
    turn: &WorldTurn,
    pass: &mut HandPass,
    who: Who,
) -> Next
    requires { (i : ℕ) × (v : HandView) × (pass.old ≡ outside_pass turn.now.id i v) × IsIdle who v }
    ensures { (i : ℕ) (v : HandView) → pass.old ≡ outside_pass turn.now.id i v → IsIdle who v
        → (u : HandView) × (pass.new ≡ outside_pass turn.now.id i u) × HasLooked v u result }
{
    each_answer_may_be_left();
    match turn.enter(rt, pass) {
        Held::Gone => {
            turn.leave(pass, Held::Gone);
            Next::Over
        }
        Held::Here(mut world, mut power) => match world.begin(alloc, who, &mut power) {
            Ok(begun) => {
                let _acts = world.acts();
                let next = next_of(begun);
                turn.leave(pass, Held::Here(world, power));
                next
            }
            Err(_) => {
                drop(world);
                turn.leave(pass, Held::Gone);
                Next::Over
            }
        },
    }
}

// Gives a job to `finish`, with its slot. Says whether it returned.
pub(crate) fn end_job<R: Wait>(
    rt: &R,
    turn: &WorldTurn,
    pass: &mut HandPass,
    job: FilledJob,
    slot: u32,
) -> bool
    requires { (i : ℕ) × (v : HandView) × (pass.old ≡ outside_pass turn.now.id i v)
        × HasFilledJob v job × (slot < v.lap.geometry.log) }
    ensures { (i : ℕ) (v : HandView) → pass.old ≡ outside_pass turn.now.id i v
        → HasFilledJob v job → slot < v.lap.geometry.log
        → (u : HandView) × (pass.new ≡ outside_pass turn.now.id i u) × HasEnded v u slot job.draft result }
{
    each_answer_may_be_left();
    match turn.enter(rt, pass) {
        Held::Gone => {
            turn.leave(pass, Held::Gone);
            false
        }
        Held::Here(mut world, mut power) => {
            let finished = world.finish(job, slot, &mut power);
            let _acts = world.acts();
            turn.leave(pass, Held::Here(world, power));
            has_returned(finished)
        }
    }
}

// Gives a job up, whose append found the log full.
pub(crate) fn drop_job<R: Wait>(
    rt: &R,
    turn: &WorldTurn,
    pass: &mut HandPass,
    job: FilledJob,
    full: Full,
) -> Worked
    requires { (i : ℕ) × (v : HandView) × (pass.old ≡ outside_pass turn.now.id i v)
        × HasFilledJob v job × (full.capacity ≤ full.claimed) × (full.capacity ≡ v.lap.geometry.log) }
    ensures ended { result ≡ ends.Worked.Ended }
    ensures dropped { (i : ℕ) (v : HandView) → pass.old ≡ outside_pass turn.now.id i v
        → HasFilledJob v job → full.capacity ≡ v.lap.geometry.log
        → (u : HandView) × (pass.new ≡ outside_pass turn.now.id i u) × HasDropped v u }
{
    each_answer_may_be_left();
    match turn.enter(rt, pass) {
        Held::Gone => {
            turn.leave(pass, Held::Gone);
            Worked::Ended
        }
        Held::Here(mut world, power) => {
            world.give_up(job, full);
            turn.leave(pass, Held::Here(world, power));
            Worked::Ended
        }
    }
}

// Tells that the power of a worker with a job went: it is lost for all. Says whether the World was there.
pub(crate) fn tell_loss<R: Wait>(rt: &R, turn: &WorldTurn, pass: &mut HandPass) -> bool
    requires { (i : ℕ) × (v : HandView) × (pass.old ≡ outside_pass turn.now.id i v)
        × (v.begun ≢ None)
        × ((steps : ℕ) × (v.given ≡ Some steps) × (steps ≤ 2 ^ 16 * (length v.mine + 1))) }
    ensures { (i : ℕ) (v : HandView) (steps : ℕ) → pass.old ≡ outside_pass turn.now.id i v → v.begun ≢ None
        → v.given ≡ Some steps → steps ≤ 2 ^ 16 * (length v.mine + 1)
        → (u : HandView) × (pass.new ≡ outside_pass turn.now.id i u) × HasTold v u result }
{
    each_answer_may_be_left();
    match turn.enter(rt, pass) {
        Held::Gone => {
            turn.leave(pass, Held::Gone);
            false
        }
        Held::Here(mut world, power) => {
            world.lose();
            turn.leave(pass, Held::Here(world, power));
            true
        }
    }
}
