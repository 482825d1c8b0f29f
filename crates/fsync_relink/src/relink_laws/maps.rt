//! Changes of K-Split's maps, in the words of the layers above.
//!
//! Lemmas alone. A log entry is carried out by a move of its blocks (`move_for`). The layer above may
//! rely on this: where K-Split made the move (`IsMoved`), the World's relink was made (`Relinks`), the
//! file has the size that the move gave it, and the chain of the file takes one block more at most, and
//! that of the staging file none (`GrowsLittle`); the chains of a volume that is read from words are as
//! long as their maps want (`HasChains`). And where bytes of a file were written over in place, or some
//! of them, each byte of the range is the old one or the new one, and each other byte of each inode is
//! as before (`HasOldOrNewBytes`).

ghost use Rattle.fsync_relink.specs.Bytes.{WritesAll, WritesOldOrNew};
ghost use Rattle.fsync_relink.specs.Moves.{MovesGrowLittle, MovesRelink, MovesSetSizes, ReadsHaveChains};

/// A move that carries out an entry is the relink of the entry.
pub fn moves_are_relinks()
    ensures relinks { MovesRelink }
    ensures sizes { MovesSetSizes }
    ensures little { MovesGrowLittle }
    ensures chains { ReadsHaveChains }
{}

/// Bytes that are written in place.
pub fn bytes_in_place_are_old_or_new()
    ensures either { WritesOldOrNew }
    ensures all { WritesAll }
{}
