//! A turn that threads take one after another.
use crate::protocols::Protocol;
use crate::table::TurnTable;
use std::marker::Model;

/// A value under a rule, of which one thread at a time has the turn.
#[derive(Drop)]
pub struct Turn<T: Drop, V, P: Protocol<T, V>> {
    pub(crate) table: TurnTable<T, V, P>,
}

impl<T: Drop, V, P: Protocol<T, V>> Model for Turn<T, V, P> {
    ghost use Rattle.std.specs.Prelude.{◌≡◌, ◌<◌};
    ghost use Rattle.ruled_turn.specs.Passes.{TurnView};

    ghost Value = { TurnView };

    ghost view = { λ t. record { id = t.table.shared.table_id; passes = t.table.shared.key.passes } };

    ghost invariant = { λ t. (t.table.shared.table_id.words ≡ 1) × (t.table.shared.table_id.slots ≡ 1)
        × (0 < t.table.shared.key.passes) };
}
