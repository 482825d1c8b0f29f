//! A write begins.
ghost use Rattle.std.specs.Prelude.{◌≡◌, ◌≢◌, ◌^◌, true, Ok};
ghost use Rattle.write_plan.specs.pm_model.Powers.{is_on, Steps};
ghost use Rattle.in_place.specs.k_split_laws.k_journal.Commits.{TakesAStep};
ghost use Rattle.write_plan.specs.eof_laws.Ends.{FilesEnd};
ghost use Rattle.write_plan.specs.AsksLaws.{call_of};
ghost use Rattle.write_begin.specs.Begins.{Found, IsBegun, IsPaid};
ghost use Rattle.write_begin.specs.Goes.{filled_by, IsBareAtRest, KeepsMaps};

use crate::begins::rooms::begin_target;
use crate::laws;
use crate::stages::{Asked, OpenFiles, ask};
use live_step_laws::{KSplit, Staging};
use pm_lines::Power;
use posix_types::{Data, Handle, Mode, Outcome, Who};
use std::alloc::{AllocError, Global};
use write_plan::{FileTable, Job};

/// How a write began.
#[derive(Drop)]
pub enum WriteBegun {
    /// It returned, with this outcome.
    Answered(Outcome),
    /// It is logged: its job, and the disk blocks that it was lent, in the order of the entry's blocks.
    Job { job: Job, blocks: Vec<u32> },
    /// It is written in place, and nothing is staged; the offset of its handle is still to be moved.
    Written,
    /// The round is over for want of space: the blocks that are needed, and those that there are.
    RoundOver { need: u64, room: u64 },
    /// The power is off.
    PowerLost,
}

/// Begins a write of bytes through a handle, at `offset` or where the handle stands, in strict mode or sync mode, beside
/// jobs that need `needs` blocks together. The power is on, and the World stands together, with the log's
/// lines out; the jobs that are out are of other callers and other files; nothing of a file lies past its end; and where
/// no run is out nothing is staged.
///
/// It answers in this order: by the row of the call that fits; RoundOver where only the jobs that are out leave
/// too little; RoundOver where too few blocks are free for the holes where it writes in place; these are filled then;
/// RoundOver where the staging has no run for the blocks that it stages; PowerLost where the power goes; else a job, or
/// Written where it stages none. RoundOver comes only where some run is out, and leaves the staging as it was; for want of
/// a run it leaves the holes filled, else K-Split as it was.
///
/// # Errors
///
/// Out of memory: no call sees a change.
///
/// # Steps
///
/// At most 2^21; in strict mode 2^16. One at least where it is written in place.
pub fn begin_write(
    alloc: Global,
    k: &mut KSplit,
    tables: &OpenFiles,
    staging: &mut Staging,
    files: &mut FileTable,
    who: Who,
    mode: Mode,
    handle: Handle,
    offset: Option<u64>,
    bytes: &Data,
    needs: u64,
    power: &mut Power,
) -> Result<WriteBegun, AllocError>
    requires on { is_on power.old ≡ true }
    requires mode { mode ≢ Mode.Posix }
    requires found { Found mode k.old tables.now.tables staging.old files.old who
        (call_of handle offset bytes.now) needs }
    requires ends { FilesEnd k.old.volume files.old }
    requires bare { IsBareAtRest staging.old }
    ensures steps { Steps (2 ^ 21) power.old power.new }
    ensures steps_strict { mode ≡ Mode.Strict → Steps (2 ^ 16) power.old power.new }
    ensures paid { IsPaid power.new result }
    ensures took { result ≡ Ok WriteBegun.Written → TakesAStep power.old power.new }
    ensures keeps { is_on power.new ≡ true
        → KeepsMaps k.old.volume k.new.volume files.old files.new
        (filled_by mode tables.now.tables who handle) }
    ensures begun { IsBegun mode who handle offset bytes.now needs k.old k.new tables.now.tables
        staging.old staging.new files.old files.new result }
{
    laws::numbers_are_those_of_the_state();
    laws::kept_numbers_are_those_of_the_state();
    let blocks = k.geometry().data_blocks();
    match ask(
        mode,
        tables,
        files,
        who,
        handle,
        offset,
        bytes.len(),
        blocks,
        needs,
    ) {
        Asked::Answered(outcome) => Ok(WriteBegun::Answered(outcome)),
        Asked::Full { need, left } => Ok(WriteBegun::RoundOver { need, room: left }),
        Asked::Goes(target) => begin_target(
            alloc, k, staging, files, who, mode, target, bytes, power,
        ),
    }
}
