//! The end of a logged write, in strict and in sync mode.
//!
//! A write is out from its beginning on: its blocks are lent. `finish_write` puts them back as they were
//! filled, moves the offset behind them, lays the run of the entry over the file, and claims the entry in
//! its slot: in strict mode its call has acted; in sync mode `place_front` then writes its bytes before the
//! first block of the entry in place, and it has. `give_up_write` puts the blocks back and gives the staged
//! run back: as if the call had not begun. None takes memory; `place_front` alone makes steps.
//!
//! The layer above may rely on this: where a World stands together with the write among those that are out,
//! it stands together without it afterwards (`HasLanded`, `LeavesFinished`, `LeavesGivenUp`); the device
//! changes at the blocks of the write alone; and what other writes that are out are to hold stays what it
//! was. What comes of them once the power is off is said by `losing`, and by `landing` of a front.

mod finishing;
mod giving_up;
mod placing;

pub use finishing::finish_write;
pub use giving_up::give_up_write;
pub use in_place::{move_by, settle_blocks};
pub use placing::place_front;
