//! The turn that the workers of a round take: over the World with the power of its calls, by the rule of `thread_laws`.
use pm_lines::Power;
use ruled_turn::{Pass, Protocol, Turn};
use split_world::World;
use std::marker::Model;

/// The World while nobody has it, with the power that its calls take; or nothing, once memory ran out within a call of it.
#[derive(Drop)]
pub enum Held {
    /// It goes on.
    Here(World, Power),
    /// It was dropped.
    Gone,
}

/// What a worker knows of the World. No value of it is made: contracts see a `HandView`.
pub struct Hand {
    world: World,
    power: Power,
}

impl Model for Hand {
    ghost use Rattle.posix_types.specs.declared.call.Who as whos;
    ghost use Rattle.thread_laws.specs.Hands.{HandView, newcomer};

    ghost Value = { HandView };

    ghost view = { λ h. newcomer h.world h.power whos.Who.Setup };
}

/// The rule of the turn.
pub struct Calls;

impl Protocol<Held, Hand> for Calls {
    ghost use Rattle.split_threads.specs.Rules.{firsts, Holds, keeps_held, KnowsHeld, May, next_view, Opens, sized_held, starts_held, tells_held};

    ghost opens = { Opens };

    ghost first = { firsts };

    ghost holds = { Holds };

    ghost may = { May };

    ghost next = { next_view };

    ghost knows = { KnowsHeld };

    ghost sized = { sized_held };

    ghost starts = { starts_held };

    ghost keeps = { keeps_held };

    ghost tells = { tells_held };
}

/// The turn over a World.
pub type WorldTurn = Turn<Held, Hand, Calls>;

/// One of its passes.
pub type HandPass = Pass<Held, Hand>;
