//! One piece of bytes in place, and the blocks that a file has.
//!
//! Lemmas alone. The layer above may rely on this: where bytes of a call lie in one inode's map, which is the file's own or that
//! of a staging file, they are written there and the call came further by them (`PieceIsPlaced`); where the power goes in it,
//! or before it, each image, with log lines and blocks put back, is kept, with the call at any place among those of the jobs
//! (`PieceIsCut`, `PieceIsOff`); each byte of other blocks is as it was (`PieceLeaves`). A block that a file has, in its map or
//! staged, is where its content is read (`PresentIsFound`).

ghost use Rattle.in_place.specs.PlaceLaws.{PieceIsCut, PieceIsOff, PieceIsPlaced, PieceLeaves, PresentIsFound};

/// A piece is written in flight.
pub(crate) fn a_piece_is_written_in_flight()
    ensures done { PieceIsPlaced }
    ensures cut { PieceIsCut }
    ensures off { PieceIsOff }
    ensures beside { PieceLeaves }
{}

/// What a file has, in its map or staged, is where its content is read, and the other way.
pub fn present_blocks_are_found()
    ensures { PresentIsFound }
{}
