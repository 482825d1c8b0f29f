//! The beginning of a write.
//!
//! `begin_write` tries the rows of the call, fills the holes where it writes in place, reserves staging blocks for the part that is
//! staged, zeroes what lies between the end of the file and a part in a later block, reads what the blocks are to hold already,
//! and lends them: a job; or it writes all bytes where they lie. It takes all memory of the job. The layer above may rely on this: a
//! row that fits answers the call, and nothing changed (`IsAnsweredBy`); a write that no row refuses becomes a job, with which the
//! World stands together (`BeginsWrite`), or is written in place (`WritesNow`), or ends the round for want of space (`EndsRound`). It goes
//! on only where the jobs that are out left what it needs, its holes could be filled, and the staging had a run for its part; it ends
//! the round only where one of these lacks, asked in this order, and only where some run is out. Where memory runs out no call
//! sees a change (`StaysStanding`); where the power goes the promise is kept (`LosesWrite`). The first write of a lap lacks no space,
//! as nothing of a file lies past its end.
//! `need_of` says what a call needs; the needs of the jobs that are out are those of their calls (`JobsNeed`).

ghost use Rattle.write_begin.specs.Needs.{JobsNeed};

use crate::laws;
pub use crate::stages::kept_numbers_are_those_of_the_state;

mod beginning;
mod needs;
mod rooms;

pub use beginning::{WriteBegun, begin_write};
pub use needs::need_of;

/// The jobs that are out need what their calls do.
pub fn jobs_need_what_their_calls_do()
    ensures { JobsNeed }
{
    laws::numbers_are_those_of_the_state();
    kept_numbers_are_those_of_the_state();
}
