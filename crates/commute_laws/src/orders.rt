//! Writes in flight and a call of others give the same in either order.
//!
//! Lemmas alone, over the meaning of the calls. A write in flight changes one description and one file
//! (`Acted`), and this change commutes with each of the sixteen calls that lets the file alone and finds
//! room, in state and outcome (`Commutes`, `Pairs`). So two writes of two files commute, a call gives what
//! it gives once the writes in flight have finished, and it may stand as the last of the unfinished calls
//! (`Orders`). `Counted` says what is held and left with the writes in flight counted, and which replies
//! they give; `Leaves` what stays where other bytes of a write are found; `Rows` has a worked row.

ghost use Rattle.commute_laws.specs.OrdersLaws.{AnswersCount, AnswersRoom, CallsCommute, CountsNeeds, FitsInPart, FitsTogether, KeepsOtherWrites, LeavesRoomInPart, NeverFits, StandsLast, WritesCommute};

/// Writes in flight commute with one another and with calls that let their files alone.
pub fn writes_commute()
    ensures writes { WritesCommute }
    ensures calls { CallsCommute }
    ensures last { StandsLast }
{}

/// What is counted and answered while writes are in flight.
pub fn writes_are_counted()
    ensures counted { CountsNeeds }
    ensures replied { AnswersCount }
    ensures together { FitsTogether }
    ensures never { NeverFits }
    ensures full { AnswersRoom }
{}

/// What stays where other bytes of a write are found.
pub fn parts_of_writes_keep_the_rest()
    ensures others { KeepsOtherWrites }
    ensures room { LeavesRoomInPart }
    ensures fits { FitsInPart }
{}
