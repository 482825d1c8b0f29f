//! From a log that threads filled, closed, to the lines that a World asks for.
//!
//! A World ends its round, or is crashed, with the lines of its log as far as its claims and its jobs came. A log that
//! threads share gives them back with what each of its claims left. These laws say that the second is the first, where the
//! claims of the log are those of the World.

ghost use Rattle.thread_laws.specs.Closed.{ClosedCrash, ClosedHolds, FullIsClaimed};

/// The lines of a closed log are those that a World asks for.
pub fn a_closed_log_is_the_worlds()
    ensures crash { ClosedCrash }
    ensures holds { ClosedHolds }
    ensures full { FullIsClaimed }
{}
