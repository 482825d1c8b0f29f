//! What a write asks for by its mode and numbers, and the offset behind it.
//!
//! The World keeps tables of open files and the size of each file by what is staged of it. From these
//! alone `ask` says how a write goes: by which row it is answered at once, whether the writes that are out
//! leave too little room for it, or to which file and place it goes on. `move_by` moves the offset behind
//! it once it is finished.
//!
//! The layer above may rely on this: a row is tried before the room beside other writes (`IsAsked`); and
//! where tables and sizes are those of a state (`AreOfState`), the write begins where its call does, the row
//! is the one that fits the call, it needs what the call needs, and the tables behind it are those of the
//! call. Neither `ask` nor `move_by` takes memory or touches the device.

ghost use Rattle.write_plan.specs.AsksLaws.{MayMove, MovesAsCall, NeedsAsCall, OpensNothing, RowsAsCall, StartsAsCall};

mod asking;
mod offsets;

pub use asking::{Asked, Target, ask};
pub use offsets::move_by;

/// What a write asks for by numbers is what its call does in a state with these tables and sizes.
pub fn numbers_are_those_of_the_state()
    ensures starts { StartsAsCall }
    ensures rows { RowsAsCall }
    ensures needs { NeedsAsCall }
    ensures moves { MovesAsCall }
    ensures may { MayMove }
    ensures opens { OpensNothing }
{}

pub use crate::rows::{room_by, truncate_row};
pub use file_table::FileTable;
pub use open_files::{OpenFiles, Opened};
