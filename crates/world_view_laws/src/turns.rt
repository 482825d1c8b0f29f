//! How a World goes on, and how it loses its power.
//!
//! Lemmas alone, over what `views` says that a World keeps: the power goes before a call or in one, and jobs end
//! after it (`Losing`), each of which leaves the blocks of those that ended before at home (`jobs_that_ended_stay_home`); a
//! job finishes or is given up while it is on (`Ending`); all that is out is put back by a crash (`Crashing`). What holds
//! by what stands in strict and in sync mode, and by what gathers in POSIX mode, holds in each (`Modes`): so the power goes
//! (`the_power_goes_in_posix_mode`), and the log's lines go out and come home (`the_lines_turn_in_posix_mode`).
//! `split_world` cites them where a call ends.

ghost use Rattle.world_view_laws.specs.Laws.{BothAreHome};
ghost use Rattle.world_view_laws.specs.PosixLines.{PosixLinesHome, PosixLinesOut};
ghost use Rattle.world_view_laws.specs.PosixLosses.{PosixIsFoundLost, PosixIsLost, PosixKeepsHome};

/// The power of a World goes that gathers in POSIX mode: in a call, or it is found off; with the log's lines at home the
/// device keeps the promise at any moment.
pub fn the_power_goes_in_posix_mode()
    ensures call { PosixIsLost }
    ensures found { PosixIsFoundLost }
    ensures home { PosixKeepsHome }
{}

/// In POSIX mode too all stands together once the log's lines went out, and once they came home.
pub fn the_lines_turn_in_posix_mode()
    ensures out { PosixLinesOut }
    ensures home { PosixLinesHome }
{}

/// The blocks of a job that ended after the power went stay at home while others end, so that a crash may follow.
pub fn jobs_that_ended_stay_home()
    ensures { BothAreHome }
{}

pub use crate::views::{
    Counters, Full, JobOut, NoMemory, OpenFiles, Over, Told, call_at, calls_made, count_call,
    finish_write, fsync, gather, give_up_write, keeper, move_by, next_in, place_front, place_of,
    run_call, settle_blocks, take_job, waits_for, what_stands_may_be_published,
};
pub use file_calls::{
    Commit, FileTable, FilledJob, Geometry, Job, KSplit, Staging,
    finished_writes_end_with_their_files, put_lines,
};
