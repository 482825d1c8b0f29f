//! What a crash leaves of a World.
//!
//! When all that is out of a World is handed in, in whatever order, and put back, nothing is lent any more. The
//! layer above may rely on this: the device then keeps the promise for the calls that returned and those that did
//! not, of which the calls of jobs that cannot have acted may be left out (`KeepsCrashed`); with log lines at home it does so at any moment (`KeepsHome`); and lines that hold the
//! claims of a lap are those of a lap without jobs (`LinesHoldOut`).
//!
//! Lemmas alone.

ghost use Rattle.write_end.specs.CrashesLaws.{KeepsCrashed, KeepsHome, LinesHoldOut};

/// All that was out is put back.
pub fn a_crash_keeps_the_promise()
    ensures crashed { KeepsCrashed }
    ensures home { KeepsHome }
    ensures lines { LinesHoldOut }
{}

pub use crate::losing::{
    Full, finish_write, give_up_write, publishing_leaves_what_is_out, settle_blocks,
};
