//! How a thread enters a turn and leaves it.
ghost use Rattle.std.specs.Prelude.{◌≡◌, ◌<◌, ℕ, [], ◌∷◌, length, Some, None};
ghost use mathlib.Core.Option.{none};
ghost use Rattle.atomic_table.specs.Table.{step};
ghost use Rattle.ruled_turn.specs.Passes.{entered, outside_pass};
ghost use Rattle.ruled_turn.specs.Standings.{outside, within};
ghost use Rattle.ruled_turn.specs.Steps.{Enters, taken};

use crate::passes::Pass;
use crate::protocols::Protocol;
use crate::table::{Releases, Takes, TurnSeat, TurnShared};
use crate::turns::Turn;
use crossbeam_utils::Backoff;
use std::sync::Wait;

// Takes the turn if it is free: the word that was found is 0 where it was.
fn take<T, V, P: Protocol<T, V>>(shared: &TurnShared<T, V, P>, seat: &mut TurnSeat<T, V>) -> u64
    requires table { (seat.old.table_id ≡ shared.now.table_id) × (shared.now.table_id.words ≡ 1) }
    requires pass { 0 < length seat.old.me.0.carried }
    ensures table { seat.new.table_id ≡ seat.old.table_id }
    ensures taken { taken P.knows (step shared.now.table_id.slots 0 0 1 none) seat.old.me result seat.new.me }
{
    shared.compare_exchange::<Takes<P>>(seat, 0, 0, 1)
}

// Takes the turn. While another has it, the thread looks again for some microseconds, in which most leave it, and then
// sleeps.
fn wait<T, V, P: Protocol<T, V>, R: Wait>(
    rt: &R,
    shared: &TurnShared<T, V, P>,
    seat: &mut TurnSeat<T, V>,
)
    requires table { (seat.old.table_id ≡ shared.now.table_id) × (shared.now.table_id.words ≡ 1) }
    requires pass { 0 < length seat.old.me.0.carried }
    ensures table { seat.new.table_id ≡ seat.old.table_id }
    ensures enters { Enters P.knows seat.old.me seat.new.me }
{
    let backoff = Backoff::new();
    for _ in rt.forever() {
        if take(shared, seat) == 0 {
            return;
        }
        if backoff.is_completed() {
            shared.park(rt, 0, 1);
        } else {
            backoff.snooze();
        }
    }
    unreachable!()
}

// Takes the value out of the slot.
fn take_value<T, V, P: Protocol<T, V>>(shared: &TurnShared<T, V, P>, seat: &mut TurnSeat<T, V>) -> T
    requires table { seat.old.table_id ≡ shared.now.table_id }
    requires value { (x : T) × (seat.old.me.1 ≡ (0, Some x) ∷ []) }
    ensures table { seat.new.table_id ≡ seat.old.table_id }
    ensures value { seat.old.me.1 ≡ (0, Some result) ∷ [] }
    ensures out { seat.new.me ≡ (seat.old.me.0, (0, None) ∷ []) }
{
    let Some(value) = shared.exchange(seat, 0, None) else {
        unreachable!()
    };
    value
}

// Puts a value into the slot, and releases the turn.
fn release<T: Drop, V, P: Protocol<T, V>>(
    shared: &TurnShared<T, V, P>,
    seat: &mut TurnSeat<T, V>,
    value: T,
)
    requires table { (seat.old.table_id ≡ shared.now.table_id) × (shared.now.table_id.words ≡ 1) }
    requires may { (i : ℕ) × (v : V) × (x : T)
        × (seat.old.me ≡ (within ((i, v) ∷ []) x, (0, None) ∷ [])) × P.may v x value }
    ensures table { seat.new.table_id ≡ seat.old.table_id }
    ensures left { (i : ℕ) (v : V) (x : T) → seat.old.me.0 ≡ within ((i, v) ∷ []) x
        → seat.new.me ≡ (outside ((i, P.next v x value) ∷ []), []) }
{
    drop(shared.exchange(seat, 0, Some(value)));
    shared.store::<Releases<P>>(seat, 0, 0);
}

impl<T: Drop, V, P: Protocol<T, V>> Turn<T, V, P> {
    /// Waits until nobody is inside, and takes the value: the pass learns what the protocol says of it.
    pub fn enter<R: Wait>(&self, rt: &R, pass: &mut Pass<T, V>) -> T
        requires pass { pass.old.turn ≡ self.now.id }
        requires outside { pass.old.inside ≡ None }
        ensures pass { pass.new ≡ entered pass.old result }
        ensures knows { (i : ℕ) (v : V) → pass.old.carried ≡ (i, v) ∷ [] → P.knows result v }
    {
        let shared = &self.table.shared;
        wait(rt, shared, &mut pass.seat);
        take_value(shared, &mut pass.seat)
    }

    /// Leaves a value that the protocol allows the pass, and wakes one of those that wait.
    pub fn leave(&self, pass: &mut Pass<T, V>, value: T)
        requires pass { pass.old.turn ≡ self.now.id }
        requires may { (i : ℕ) × (v : V) × (x : T)
            × (pass.old.carried ≡ (i, v) ∷ []) × (pass.old.inside ≡ Some x) × P.may v x value }
        ensures { (i : ℕ) (v : V) (x : T) → pass.old.carried ≡ (i, v) ∷ [] → pass.old.inside ≡ Some x
            → pass.new ≡ outside_pass pass.old.turn i (P.next v x value) }
    {
        let shared = &self.table.shared;
        release(shared, &mut pass.seat, value);
        shared.wake_one(0);
    }
}
