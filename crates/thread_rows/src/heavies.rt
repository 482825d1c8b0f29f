//! A turn over a value that takes a while to be put back, of which it asks nothing.
use ruled_turn::{Pass, Protocol, Turn};

/// 256 KiB, which are copied whenever a thread enters or leaves.
#[derive(Drop)]
pub struct Heavy {
    pub words: [u64; 32_768],
}

/// The rule that asks nothing.
pub struct Anything;

impl Protocol<Heavy, bool> for Anything {
    ghost use Rattle.thread_rows.specs.Heavies.{AllowsAny, first_flags, HoldsAny, keeps_any, KnowsAny, next_flag, OpensAny, sized_flags, starts_any, tells_any};

    ghost opens = { OpensAny };

    ghost first = { first_flags };

    ghost holds = { HoldsAny };

    ghost may = { AllowsAny };

    ghost next = { next_flag };

    ghost knows = { KnowsAny };

    ghost sized = { sized_flags };

    ghost starts = { starts_any };

    ghost keeps = { keeps_any };

    ghost tells = { tells_any };
}

/// A turn over such a value.
pub type HeavyTurn = Turn<Heavy, bool, Anything>;

/// One of its passes.
pub type HeavyPass = Pass<Heavy, bool>;
