//! Outcomes of calls: what the rows answer that fit.
ghost use Rattle.std.specs.Prelude.{◌≡◌, Some};
ghost use Rattle.posix_types.specs.declared.reply.Reply.{Reply};
ghost use Rattle.posix_tables.specs.Outcomes.{answer, no_space};

use posix_types::{Errno, Outcome, Reply, Room, What};

/// A reply without a word on room.
pub fn answer(reply: Reply) -> Outcome
    ensures { result ≡ answer reply }
{
    Outcome { reply, room: None }
}

/// The outcome of a row that fits and refuses.
pub fn refused(errno: Errno) -> Option<Outcome>
    ensures { result ≡ Some (answer (Reply.Error errno)) }
{
    Some(answer(Reply::Error(errno)))
}

/// The outcome of a row that fits and refuses for want of space: what was used up, how much the call
/// needed and how much was left.
pub fn no_space(what: What, need: u64, room: u64) -> Option<Outcome>
    ensures { result ≡ Some (no_space what need room) }
{
    Some(Outcome {
        reply: Reply::Error(Errno::ENOSPC),
        room: Some(Room { what, need, room }),
    })
}
