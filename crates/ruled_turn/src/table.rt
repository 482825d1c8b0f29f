//! The table that the threads share: its rule, and its kinds of step.
use crate::protocols::Protocol;
use crate::views::{Opening, Standing};
use atomic_table::{Join, Play, Seat, Shared, Split, Table, TableRule};
use std::alloc::Global;
use std::marker::PhantomData;

/// The rule of a turn with this protocol.
pub struct Turns<P> {
    protocol: PhantomData<P>,
}

impl<T, V, P: Protocol<T, V>> TableRule<Option<T>, Standing<T, V>, Opening<T>> for Turns<P> {
    ghost use Rattle.ruled_turn.specs.Rule.{first_standing, KeptFor};

    ghost holds = { KeptFor P.holds };

    ghost first = { first_standing P.first };
}

/// Taking the turn.
pub struct Takes<P> {
    protocol: PhantomData<P>,
}

impl<T, V, P: Protocol<T, V>> Play<Option<T>, Standing<T, V>> for Takes<P> {
    ghost use Rattle.ruled_turn.specs.Steps.{taken};

    ghost then = { taken P.knows };
}

/// Releasing it.
pub struct Releases<P> {
    protocol: PhantomData<P>,
}

impl<T, V, P: Protocol<T, V>> Play<Option<T>, Standing<T, V>> for Releases<P> {
    ghost use Rattle.ruled_turn.specs.Steps.{released};

    ghost then = { released P.next };
}

/// The first pass goes to a seat of its own.
pub struct Deals;

impl<T, V> Split<Standing<T, V>> for Deals {
    ghost use Rattle.ruled_turn.specs.Standings.{first_alone, without_first};

    ghost left = { without_first };

    ghost right = { first_alone };
}

/// One seat takes over the passes of another.
pub struct Gathers;

impl<T, V> Join<Standing<T, V>> for Gathers {
    ghost use Rattle.std.specs.Prelude.{[]};
    ghost use Rattle.ruled_turn.specs.Standings.{joined, outside};

    ghost both = { joined };

    ghost spent = { outside [] };
}

/// The table of a turn.
pub type TurnTable<T, V, P> = Table<Option<T>, Standing<T, V>, Opening<T>, Turns<P>, Global>;

/// What threads have of it.
pub type TurnShared<T, V, P> = Shared<Option<T>, Standing<T, V>, Opening<T>, Turns<P>>;

/// A seat at it.
pub type TurnSeat<T, V> = Seat<Option<T>, Standing<T, V>>;
