//! How a turn is opened: its value goes into the slot of a table, and its passes are dealt.
ghost use Rattle.std.specs.Prelude.{◌≡◌, ◌<◌, ◌∷◌, ℕ, [], length, map, IfOk, Some};
ghost use Rattle.ruled_turn.specs.Passes.{IsPass, outside_pass, passes_with};
ghost use Rattle.ruled_turn.specs.Standings.{outside};

use crate::passes::Pass;
use crate::protocols::Protocol;
use crate::table::{Deals, TurnSeat, TurnShared};
use crate::turns::Turn;
use crate::views::Opening;
use atomic_table::Table;
use std::alloc::{AllocError, Global};
use std::snapshot::Snapshot;

// The slot of a turn, with its value.
fn slots_of<T: Drop>(alloc: Global, value: T) -> Result<Vec<Option<T>>, AllocError>
    ensures { IfOk result (λ slots. slots.items ≡ Some value ∷ []) }
{
    let Ok(mut slots) = Vec::with_capacity(alloc, 1) else {
        drop(value);
        return Err(AllocError);
    };
    slots.push_reserved(Some(value));
    Ok(slots)
}

// The pass of a seat that carries one.
fn pass_of<T, V>(seat: TurnSeat<T, V>) -> Pass<T, V>
    requires { IsPass seat.me }
    ensures { result ≡ record { turn = seat.table_id; carried = seat.me.0.carried; inside = seat.me.0.inside } }
{
    Pass { seat }
}

// A pass for each that the first seat carries.
fn deal<T, V, P: Protocol<T, V>>(
    alloc: Global,
    shared: &TurnShared<T, V, P>,
    first: TurnSeat<T, V>,
    passes: u32,
) -> Result<Vec<Pass<T, V>>, AllocError>
    requires some { 0 < passes }
    requires first { first.me ≡ (outside first.me.0.carried, []) }
    requires count { length first.me.0.carried ≡ passes }
    requires table { (first.table_id ≡ shared.now.table_id) × (shared.now.table_id.words ≡ 1) }
    ensures { IfOk result (λ dealt. dealt.items
        ≡ map (λ c. outside_pass shared.now.table_id c.0 c.1) first.me.0.carried) }
{
    let mut first = first;
    let mut dealt = Vec::with_capacity(alloc, passes as usize)?;
    for _pass in 1..passes {
        let seat = shared.split_seat::<Deals>(&mut first);
        dealt.push(pass_of(seat))?;
    }
    dealt.push(pass_of(first))?;
    Ok(dealt)
}

impl<T: Drop, V, P: Protocol<T, V>> Turn<T, V, P> {
    /// Opens a turn over the value, for so many passes, at least one. Where there is no memory, the value is dropped.
    pub fn open(
        alloc: Global,
        value: T,
        passes: u32,
    ) -> Result<(Turn<T, V, P>, Vec<Pass<T, V>>), AllocError>
        requires some { 0 < passes }
        requires opens { P.opens value passes }
        ensures count { IfOk result (λ made. made.0.passes ≡ passes) }
        ensures passes { IfOk result (λ made. made.1.items ≡ passes_with made.0.id (P.first value passes)) }
    {
        let opening = Opening {
            passes,
            value: Snapshot::of(&value),
        };
        let Ok(slots) = slots_of(alloc, value) else {
            drop(opening);
            return Err(AllocError);
        };
        let made = Table::new(alloc, &[0], slots, &opening);
        drop(opening);
        let Ok((table, first)) = made else {
            return Err(AllocError);
        };
        match deal(alloc, &table.shared, first, passes) {
            Ok(dealt) => Ok((Turn { table }, dealt)),
            Err(error) => {
                drop(table);
                Err(error)
            }
        }
    }
}
