//! The rule of a turn over a World.
//!
//! It begins with views that know nothing, one for each thread and one for the set-up. Whatever a holder does that is one call of its caller, World and
//! views stand together again, with its own view as that call leaves it and all others as they were; and who enters knows what its view says.

ghost use Rattle.thread_laws.specs.TurnsLaws.{HandsAreKept, HandsAreSized, HandsKnow, HandsStart};

/// World and views stand together at the beginning of a round, and behind each call; and then each view tells what is so.
pub fn a_turn_keeps_its_world()
    ensures sized { HandsAreSized }
    ensures start { HandsStart }
    ensures kept { HandsAreKept }
    ensures know { HandsKnow }
{}
