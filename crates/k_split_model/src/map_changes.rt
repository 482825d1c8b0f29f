//! What each change of K-Split's maps makes of a volume, in definitions.
//!
//! A change writes a map whole into free blocks, the lowest first, and switches its inode over to it
//! (`switched`); the blocks that the inode had before and has no longer are free then. There are six:
//! a file gets a size and loses what lies past it (`IsSized`; where nothing does, its line alone
//! changes), the holes of a range of a file get
//! blocks (`IsFilled`), a staging file gets blocks (`IsPreallocated`) or gives up all of its own
//! (`given_up`), blocks go from a staging file to a file (`IsMoved`),
//! and several runs of blocks do by one landing (`AreAllMoved`). Each says the inode's line,
//! its map file block by file block, and just which free blocks are taken; all else of the volume is
//! as before. Which blocks are free is a test that is handed in.
//!
//! Definitions, with a small volume as their example.

mod laws;
mod moves;

pub use laws::{a_landing_of_one_run_is_a_move, maps_of_a_small_volume_change};
pub use moves::{Landing, Move, MoveRun};
