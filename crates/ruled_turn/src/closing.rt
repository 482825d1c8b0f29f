//! How a turn is closed: its passes come together again, and the value comes out.
ghost use Rattle.std.specs.Prelude.{◌≡◌, ◌<◌, ℕ, List, [], All, length, None};
ghost use Rattle.std.specs.List.{flat_map};
ghost use Rattle.ruled_turn.specs.Passes.{HaveViews};

use crate::passes::Pass;
use crate::protocols::Protocol;
use crate::table::{Gathers, TurnSeat, TurnShared};
use crate::turns::Turn;

// The seat of a pass.
fn seat_of<T, V>(pass: Pass<T, V>) -> TurnSeat<T, V>
    requires { pass.inside ≡ None }
    ensures table { result.table_id ≡ pass.turn }
    ensures home { result.me.1 ≡ [] }
    ensures outside { result.me.0.inside ≡ None }
    ensures carried { result.me.0.carried ≡ pass.carried }
    ensures one { length result.me.0.carried ≡ 1 }
{
    let Pass { seat } = pass;
    seat
}

// One seat that carries what all passes carry.
fn gather<T, V, P: Protocol<T, V>>(
    shared: &TurnShared<T, V, P>,
    passes: Vec<Pass<T, V>>,
) -> TurnSeat<T, V>
    requires some { 0 < length passes.items }
    requires table { All (λ p. p.turn ≡ shared.now.table_id) passes.items }
    requires outside { All (λ p. p.inside ≡ None) passes.items }
    requires words { shared.now.table_id.words ≡ 1 }
    ensures table { result.table_id ≡ shared.now.table_id }
    ensures outside { result.me.0.inside ≡ None }
    ensures carried { result.me.0.carried ≡ flat_map (λ p. p.carried) passes.items }
    ensures count { length result.me.0.carried ≡ length passes.items }
{
    let mut passes = passes;
    let Some(last) = passes.pop() else {
        unreachable!()
    };
    let mut whole = seat_of(last);
    while let Some(pass) = passes.pop() {
        shared.join_seat::<Gathers>(&mut whole, seat_of(pass));
    }
    whole
}

impl<T: Drop, V, P: Protocol<T, V>> Turn<T, V, P> {
    /// Closes the turn with all its passes, none of them inside, and gives its value: the protocol's rule holds of it and of
    /// the views of the passes, by their numbers.
    pub fn close(self, passes: Vec<Pass<T, V>>) -> T
        requires all { length passes.items ≡ self.passes }
        requires turn { All (λ p. p.turn ≡ self.id) passes.items }
        requires outside { All (λ p. p.inside ≡ None) passes.items }
        ensures { (views : List V) × P.holds result views × (length views ≡ self.passes)
            × HaveViews views passes.items }
    {
        let Turn { table } = self;
        let whole = gather(&table.shared, passes);
        let mut closed = table.close_with(whole);
        let value = closed.take(0);
        closed.free();
        let Some(value) = value else { unreachable!() };
        value
    }
}
