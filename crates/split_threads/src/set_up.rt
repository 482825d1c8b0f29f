//! Before the threads start: the pass of each worker is shown that the set-up is done, or that all stop.
ghost use Rattle.std.specs.Prelude.{◌≡◌, ℕ, true, slice_get, None, Some};
ghost use Rattle.ruled_turn.specs.Passes.{outside_pass};
ghost use Rattle.thread_laws.specs.Hands.{HandView};
ghost use Rattle.split_threads.specs.Dealt.{HasOnlyLooked, HasSeen, HaveSeen, IsLook, IsShownBy, look_for};

use crate::turns::{HandPass, Held, WorldTurn};
use crate::working::Own;
use posix_types::Who;
use split_world::{Ready, World};
use std::sync::Wait;
use std::thread::yield_now;
use thread_laws::each_answer_may_be_left;

/// What a look at the World finds: the set-up is done; or all stop, since the round is over or the power was lost; or neither.
#[derive(Clone, Copy)]
pub(crate) enum Look {
    SetUp,
    Stopped,
    Nothing,
}

// Looks at a World.
fn look_at(world: &World) -> Look
    requires { world.now.usable ≡ true }
    ensures { IsLook world.now result }
{
    if world.setup_done() {
        return Look::SetUp;
    }
    if world.is_lost() {
        return Look::Stopped;
    }
    match world.ready(Who::Setup) {
        Ready::RoundOver => Look::Stopped,
        Ready::Yes | Ready::Busy { .. } | Ready::ScriptEnd | Ready::Out => Look::Nothing,
    }
}

// Enters, looks, and leaves what was found.
fn look_once<R: Wait>(rt: &R, turn: &WorldTurn, pass: &mut HandPass) -> Look
    requires { (i : ℕ) × (v : HandView) × (pass.old ≡ outside_pass turn.now.id i v)
        × (v.out ≡ None) × (v.begun ≡ None) }
    ensures { (i : ℕ) (v : HandView) → pass.old ≡ outside_pass turn.now.id i v → v.out ≡ None → v.begun ≡ None
        → (u : HandView) × (pass.new ≡ outside_pass turn.now.id i u) × HasOnlyLooked v u × IsShownBy u result }
{
    each_answer_may_be_left();
    match turn.enter(rt, pass) {
        Held::Gone => {
            turn.leave(pass, Held::Gone);
            Look::Stopped
        }
        Held::Here(world, power) => {
            let look = look_at(&world);
            turn.leave(pass, Held::Here(world, power));
            look
        }
    }
}

// Looks until the set-up is done, or all stop.
fn wait_for_set_up<R: Wait>(rt: &R, turn: &WorldTurn, pass: &mut HandPass) -> bool
    requires { (i : ℕ) × (v : HandView) × (pass.old ≡ outside_pass turn.now.id i v)
        × (v.out ≡ None) × (v.begun ≡ None) }
    ensures { (i : ℕ) (v : HandView) → pass.old ≡ outside_pass turn.now.id i v → v.out ≡ None → v.begun ≡ None
        → (u : HandView) × (pass.new ≡ outside_pass turn.now.id i u) × HasOnlyLooked v u × IsShownBy u (look_for result) }
{
    for _ in rt.forever() {
        match look_once(rt, turn, pass) {
            Look::SetUp => return true,
            Look::Stopped => return false,
            Look::Nothing => yield_now(),
        }
    }
    unreachable!()
}

// The same with the pass of a worker.
fn show_one<R: Wait>(rt: &R, turn: &WorldTurn, own: &mut Own) -> bool
    requires { (i : ℕ) × (v : HandView) × (own.old.pass ≡ outside_pass turn.now.id i v)
        × (v.out ≡ None) × (v.begun ≡ None) }
    ensures { HasSeen turn.now (look_for result) own.old own.new }
{
    wait_for_set_up(rt, turn, &mut own.pass)
}

/// Each worker looks until the set-up is done. It ends at the first for which all stop.
pub(crate) fn show_all<R: Wait>(rt: &R, turn: &WorldTurn, owns: &mut [Own]) -> bool
    requires { (k : ℕ) (own : _) → slice_get owns.old k ≡ Some own
        → (i : ℕ) × (v : HandView) × (own.pass ≡ outside_pass turn.now.id i v) × (v.out ≡ None) × (v.begun ≡ None) }
    ensures { HaveSeen turn.now owns.old owns.new result }
{
    for k in 0..owns.len() {
        if !show_one(rt, turn, &mut owns[k]) {
            return false;
        }
    }
    true
}
