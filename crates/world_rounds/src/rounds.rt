//! The rounds of a World: they begin, end at a checkpoint or with the run, or with the power.
//!
//! The layer above may rely on this: the log's lines go out with their words kept (`begin_lines`, `IsRoundBegun`); at a
//! checkpoint they come home, all that is staged is published, and the next lap begins (`end_lines`, `IsCheckpoint`), and
//! once the power had gone they are kept (`keep_lines`); a run ends with all published, and the device and the history
//! are left (`end_run`, `IsEnded`); and what a World that lost its power leaves, whatever is put back of lines and blocks,
//! keeps the promise (`crash_lost`, `IsLeft`).

mod losses;
mod rounds;
mod unmounts;

pub use crate::job_ends::{finish_off, finish_on, give_up_off, give_up_on, lose_one};
pub use losses::crash_lost;
pub use round_laws::an_unmount_ends_a_run;
pub use rounds::{begin_lines, end_lines, keep_lines};
pub use unmounts::end_run;
