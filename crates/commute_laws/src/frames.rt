//! What the calls of others keep of a logged write that is in flight.
//!
//! Lemmas alone, over the meaning of the calls. A write in flight puts whole bytes into a file
//! (`InFlight`). A call of another thread that the busy rule lets through lets the file alone, and then
//! the write has at its end the effect, and the need, that it had when it began: what its handle stands
//! for stays (`Handles`), the file stays under calls that change names (`Bystanders`) and under all
//! others (`Frames`), and so what is put stays (`Flights`), over any history (`Histories`). The needs of
//! all writes in flight stay within the room under every call that fits beside them, and when one of
//! them finishes (`Rooms`, `Needs`).

ghost use Rattle.commute_laws.specs.FramesLaws.{KeepsEffects, KeepsWrite, LeavesRoom, LetsFilesBe, StaysAfforded, StaysAffordedAtEnds};

/// A write in flight keeps its effect under every call that the busy rule lets through.
pub fn writes_keep_their_effect()
    ensures idle { LetsFilesBe }
    ensures write { KeepsWrite }
    ensures history { KeepsEffects }
{}

/// Writes in flight find the room that they need, whatever fits beside them.
pub fn writes_find_their_room()
    ensures left { LeavesRoom }
    ensures afforded { StaysAfforded }
    ensures ended { StaysAffordedAtEnds }
{}
