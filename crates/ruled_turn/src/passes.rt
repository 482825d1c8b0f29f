//! A pass of a turn.
use crate::table::TurnSeat;
use std::marker::Model;

/// A pass of a turn, with which one thread at a time enters.
#[derive(Drop)]
pub struct Pass<T, V> {
    pub(crate) seat: TurnSeat<T, V>,
}

impl<T, V> Model for Pass<T, V> {
    ghost use Rattle.ruled_turn.specs.Passes.{IsPass, PassView};

    ghost Value = { PassView T V };

    ghost view = { λ p. record { turn = p.seat.table_id; carried = p.seat.me.0.carried; inside = p.seat.me.0.inside } };

    ghost invariant = { λ p. IsPass p.seat.me };
}
