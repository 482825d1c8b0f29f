//! A file is written in place, or is anew, where no job is out.
//!
//! Lemmas, and the small definitions that they speak of. The layer above may rely on this, where no job is in flight:
//! bytes of a file are written in place, whatever else is written in blocks that no other file has (`WritesBeside`),
//! also as the one job finishes; and a file of which entries are live gets another map, size and applied order, by
//! which it has its bytes alone (`Renews`), and its claims are gone.

ghost use Rattle.world_write_laws.specs.BesideLaws.{KeepsFinishedInPlaceBeside, KeepsInPlaceBeside, KeepsRenewed, PlaceIsBeside};

/// Bytes are written in place, and maybe others in blocks that no other file has.
pub fn files_are_written_beside()
    ensures in_place { KeepsInPlaceBeside }
    ensures finished { KeepsFinishedInPlaceBeside }
    ensures weaker { PlaceIsBeside }
{}

/// A file is anew, whatever was staged of it.
pub fn files_are_renewed()
    ensures { KeepsRenewed }
{}
