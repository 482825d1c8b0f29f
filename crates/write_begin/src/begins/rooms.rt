//! Room for a write, and its job.
ghost use Rattle.std.specs.Prelude.{◌≡◌, ◌≢◌, ◌+◌, ◌-◌, ◌*◌, ◌/◌, ◌<◌, ◌≤◌, ◌^◌, true, length, Contains, None, Ok};
ghost use Rattle.block_counts.specs.Counts.{blocks_for};
ghost use Rattle.block_counts.specs.declared.TheConstants.{LONGEST_FILE, LONGEST_WRITE};
ghost use Rattle.write_plan.specs.pm_model.Powers.{is_on, Steps};
ghost use Rattle.in_place.specs.k_split_laws.k_journal.Commits.{TakesAStep};
ghost use Rattle.write_plan.specs.file_table.Files.{size_in, spare_in};
ghost use Rattle.write_begin.specs.Begins.{IsPaid};
ghost use Rattle.write_begin.specs.Goes.{filled_in, FitsTarget, Goes, GoesWhole, HasRoom, IsBareAtRest, IsGone, IsJobBegun, KeepsMaps, reached_run};
ghost use Rattle.data_route.specs.Writes.{plan_of};
ghost use Rattle.in_place.specs.Gaps.{IsClearPaid};
ghost use Rattle.in_place.specs.Holes.{absent_count, HasRuns, holes_need, IsHolesAnswer, IsHolesPaid};
ghost use Rattle.in_place.specs.Placing.{CanPlace, IsPlaceAnswer};
ghost use Rattle.in_place.specs.k_split_laws.k_split.MapChanges.{free_blocks_in};
ghost use Rattle.write_plan.specs.eof_laws.block_io.Overwrites.{blocks_reached};
ghost use Rattle.write_begin.specs.Rooms.{ArePresent, IsFrontFilled, IsTargetGone, LieWithin};
ghost use Rattle.write_begin.specs.Stages.{Ready};

use crate::begins::beginning::WriteBegun;
use crate::laws;
use crate::stages::{Target, clear_gap, stage_write};
use block_counts::blocks_for;
use data_route::{WritePlan, plan_write};
use in_place::{Holes, fill_absent, put_in_place};
use live_step_laws::{KSplit, StageFault, StageRun, Staging};
use pm_lines::Power;
use posix_types::{Data, Mode, Who};
use std::alloc::{AllocError, Global};
use write_plan::{Commit, FileTable};

// How many blocks a write of `len` bytes stages, of which this is the plan: those that it reaches.
fn count_of(plan: WritePlan, target: Target, len: usize) -> u32
    requires plan { plan.staged ≡ reached_run target len }
    requires some { 1 ≤ len }
    requires most { len ≤ LONGEST_WRITE }
    requires fits { target.start + len ≤ LONGEST_FILE }
    ensures count { result ≡ blocks_reached target.start len }
    ensures least { 1 ≤ result }
    ensures most { result ≤ 33 }
{
    match plan.staged {
        Some((_, count)) => count,
        None => 0,
    }
}

// Makes the job of a write that has its run; where memory runs out the run goes back.
fn begin_job(
    alloc: Global,
    k: &mut KSplit,
    staging: &mut Staging,
    files: &FileTable,
    who: Who,
    target: Target,
    bytes: &Data,
    run: StageRun,
) -> Result<WriteBegun, AllocError>
    requires ready { Ready k.old files.now who target bytes.now run }
    requires out { Contains staging.old.out run }
    ensures { IsJobBegun k.old k.new staging.old staging.new files.now who target bytes.now run
        result }
{
    match stage_write(alloc, k, files, who, target, bytes, run) {
        Ok(made) => Ok(WriteBegun::Job {
            job: made.job,
            blocks: made.blocks,
        }),
        Err(error) => {
            staging.give_back(run);
            let _owed = staging.owed();
            Err(error)
        }
    }
}

// Reserves the run of a write by its plan, zeroes what lies between the end of the file and the block of the write, and makes its
// job. There is room to lay the run; where nothing is staged the staging has a run for it. Where the power goes the run
// stays out.
fn begin_reserved(
    alloc: Global,
    k: &mut KSplit,
    staging: &mut Staging,
    files: &FileTable,
    who: Who,
    mode: Mode,
    target: Target,
    bytes: &Data,
    power: &mut Power,
) -> Result<WriteBegun, AllocError>
    requires on { is_on power.old ≡ true }
    requires goes { Goes mode k.old staging.old files.now who target bytes.now }
    requires target { FitsTarget files.now target (length bytes.now) }
    requires staged { (plan_of mode target.size target.start (length bytes.now)).staged
        ≡ reached_run target (length bytes.now) }
    requires room { HasRoom mode k.old.volume files.now target (length bytes.now) }
    requires bare { IsBareAtRest staging.old }
    requires spare { 3 ≤ spare_in files.now target.ino }
    ensures steps { Steps (2 ^ 16) power.old power.new }
    ensures paid { IsPaid power.new result }
    ensures keeps { is_on power.new ≡ true
        → KeepsMaps k.old.volume k.new.volume files.now files.now None }
    ensures gone { IsGone mode k.old k.new staging.old staging.new files.now files.now who target
        bytes.now (reached_run target (length bytes.now)) result }
{
    laws::a_run_is_reserved_in_flight();
    laws::the_first_write_finds_its_blocks();
    let size = files.size(target.ino);
    let len = bytes.len();
    let plan = plan_write(mode, size, target.start, len as u64);
    let count = count_of(plan, target, len);
    match staging.reserve(alloc, k, count, power) {
        Ok(run) => {
            match clear_gap(k, files, target.ino, target.start, plan.clean_tail, power) {
                Commit::PowerLost => Ok(WriteBegun::PowerLost),
                Commit::Done => begin_job(alloc, k, staging, files, who, target, bytes, run),
            }
        }
        Err(StageFault::PowerLost) => Ok(WriteBegun::PowerLost),
        Err(StageFault::NoMemory) => Err(AllocError),
        Err(StageFault::NoRoom { need, room }) => {
            if staging.is_fresh() {
                unreachable!()
            }
            Ok(WriteBegun::RoundOver {
                need: u64::from(need),
                room: u64::from(room),
            })
        }
    }
}

// Makes room for the staged part of a write, and its job: memory for its run in the file table, a run of staging blocks, and
// zeros between the end of the file and the block of the part.
fn begin_staged(
    alloc: Global,
    k: &mut KSplit,
    staging: &mut Staging,
    files: &mut FileTable,
    who: Who,
    mode: Mode,
    target: Target,
    bytes: &Data,
    power: &mut Power,
) -> Result<WriteBegun, AllocError>
    requires on { is_on power.old ≡ true }
    requires goes { Goes mode k.old staging.old files.old who target bytes.now }
    requires target { FitsTarget files.old target (length bytes.now) }
    requires staged { (plan_of mode target.size target.start (length bytes.now)).staged
        ≡ reached_run target (length bytes.now) }
    requires room { HasRoom mode k.old.volume files.old target (length bytes.now) }
    requires bare { IsBareAtRest staging.old }
    ensures steps { Steps (2 ^ 16) power.old power.new }
    ensures paid { IsPaid power.new result }
    ensures keeps { is_on power.new ≡ true
        → KeepsMaps k.old.volume k.new.volume files.old files.new None }
    ensures gone { IsGone mode k.old k.new staging.old staging.new files.old files.new who target
        bytes.now (reached_run target (length bytes.now)) result }
{
    match files.reserve(target.ino) {
        Err(error) => Err(error),
        Ok(()) => begin_reserved(alloc, k, staging, files, who, mode, target, bytes, power),
    }
}

// Gives the bytes of a file from one on and before another their blocks; they lie below its end, in no more blocks than a write
// has.
fn fill_range(
    alloc: Global,
    k: &mut KSplit,
    staging: &Staging,
    files: &FileTable,
    ino: u32,
    from: u64,
    to: u64,
    power: &mut Power,
) -> Result<Holes, AllocError>
    requires on { is_on power.old ≡ true }
    requires has { HasRuns k.old staging.now files.now ino }
    requires some { from < to }
    requires below { to ≤ size_in files.now ino }
    requires fits { to ≤ LONGEST_FILE }
    requires few { blocks_for to - from / 4096 ≤ 33 }
    ensures steps { Steps (2 ^ 20) power.old power.new }
    ensures paid { IsHolesPaid power.old power.new result }
    ensures enough { result ≡ Ok Holes.Filled
        → 1 ≤ absent_count k.old.volume files.now ino (from / 4096) (blocks_for to - from / 4096)
        → holes_need k.old staging.now files.now ino (from / 4096) (blocks_for to - from / 4096)
        ≤ free_blocks_in k.old }
    ensures answer { IsHolesAnswer k.old k.new staging.now files.now ino (from / 4096)
        (blocks_for to - from / 4096) result }
{
    let first = (from / 4096) as u32;
    let count = blocks_for(to) as u32 - first;
    fill_absent(alloc, k, staging, files, ino, first, count, power)
}

// Gives the bytes of a file that a write writes in place their blocks, where some are.
fn fill_front(
    alloc: Global,
    k: &mut KSplit,
    staging: &Staging,
    files: &FileTable,
    ino: u32,
    in_place: Option<(u64, u64)>,
    power: &mut Power,
) -> Result<Holes, AllocError>
    requires on { is_on power.old ≡ true }
    requires has { HasRuns k.old staging.now files.now ino }
    requires within { LieWithin files.now ino in_place }
    ensures steps { Steps (2 ^ 20) power.old power.new }
    ensures spared { in_place ≡ None → power.new ≡ power.old }
    ensures paid { IsHolesPaid power.old power.new result }
    ensures answer { IsFrontFilled k.old k.new staging.now files.now ino in_place result }
{
    match in_place {
        None => Ok(Holes::Filled),
        Some((from, to)) => fill_range(alloc, k, staging, files, ino, from, to, power),
    }
}

// Writes bytes of a call into its file in place, from byte `at` on, and makes them durable.
fn put_shared(
    k: &mut KSplit,
    files: &FileTable,
    ino: u32,
    at: u64,
    bytes: &Data,
    power: &mut Power,
) -> Commit
    requires on { is_on power.old ≡ true }
    requires can { CanPlace k.old files.now ino at bytes.now }
    ensures steps { Steps (577 * blocks_reached at (length bytes.now)) power.old power.new }
    ensures took { is_on power.new ≡ true → 0 < length bytes.now
        → TakesAStep power.old power.new }
    ensures paid { IsClearPaid power.new result }
    ensures answer { IsPlaceAnswer k.old k.new files.now ino at bytes.now result }
{
    put_in_place(k, files, ino, at, bytes.as_slice(), power)
}

// Writes a write whose holes are filled: its staged part becomes a job; where it has none its bytes are written where they lie.
fn begin_filled(
    alloc: Global,
    k: &mut KSplit,
    staging: &mut Staging,
    files: &mut FileTable,
    who: Who,
    mode: Mode,
    target: Target,
    bytes: &Data,
    power: &mut Power,
) -> Result<WriteBegun, AllocError>
    requires on { is_on power.old ≡ true }
    requires mode { mode ≢ Mode.Posix }
    requires goes { Goes mode k.old staging.old files.old who target bytes.now }
    requires target { FitsTarget files.old target (length bytes.now) }
    requires room { HasRoom mode k.old.volume files.old target (length bytes.now) }
    requires bare { IsBareAtRest staging.old }
    requires present { ArePresent k.old.volume files.old target.ino
        (plan_of mode target.size target.start (length bytes.now)).in_place }
    ensures steps { Steps (2 ^ 16) power.old power.new }
    ensures paid { IsPaid power.new result }
    ensures took { result ≡ Ok WriteBegun.Written → TakesAStep power.old power.new }
    ensures keeps { is_on power.new ≡ true
        → KeepsMaps k.old.volume k.new.volume files.old files.new None }
    ensures gone { IsGone mode k.old k.new staging.old staging.new files.old files.new who target
        bytes.now (plan_of mode target.size target.start (length bytes.now)).staged result }
{
    laws::staged_blocks_are_those_of_the_part();
    let _size = files.size(target.ino);
    let plan = plan_write(mode, target.size, target.start, bytes.len() as u64);
    match plan.staged {
        None => match put_shared(k, files, target.ino, target.start, bytes, power) {
            Commit::Done => Ok(WriteBegun::Written),
            Commit::PowerLost => Ok(WriteBegun::PowerLost),
        },
        Some((first, _)) => {
            let start = target.start.max(4096 * u64::from(first));
            let part = Target {
                ino: target.ino,
                start,
                size: target.size,
            };
            let rest = bytes.behind((start - target.start) as usize)?;
            begin_staged(alloc, k, staging, files, who, mode, part, &rest, power)
        }
    }
}

/// Makes room for a write that goes on to its target: fills the holes where it writes in place; then its staged part becomes a
/// job, or, where it has none, its bytes are written.
pub(crate) fn begin_target(
    alloc: Global,
    k: &mut KSplit,
    staging: &mut Staging,
    files: &mut FileTable,
    who: Who,
    mode: Mode,
    target: Target,
    bytes: &Data,
    power: &mut Power,
) -> Result<WriteBegun, AllocError>
    requires on { is_on power.old ≡ true }
    requires mode { mode ≢ Mode.Posix }
    requires goes { GoesWhole mode k.old staging.old files.old who target bytes.now }
    requires target { FitsTarget files.old target (length bytes.now) }
    requires room { HasRoom mode k.old.volume files.old target (length bytes.now) }
    requires bare { IsBareAtRest staging.old }
    ensures steps { Steps (2 ^ 21) power.old power.new }
    ensures steps_strict { mode ≡ Mode.Strict → Steps (2 ^ 16) power.old power.new }
    ensures paid { IsPaid power.new result }
    ensures took { result ≡ Ok WriteBegun.Written → TakesAStep power.old power.new }
    ensures keeps { is_on power.new ≡ true
        → KeepsMaps k.old.volume k.new.volume files.old files.new (filled_in mode target.ino) }
    ensures gone { IsTargetGone mode k.old k.new staging.old staging.new files.old files.new who
        target bytes.now (plan_of mode target.size target.start (length bytes.now)) power.new
        result }
{
    laws::the_first_holes_find_their_blocks();
    let _size = files.size(target.ino);
    let plan = plan_write(mode, target.size, target.start, bytes.len() as u64);
    match fill_front(alloc, k, staging, files, target.ino, plan.in_place, power)? {
        Holes::PowerLost => Ok(WriteBegun::PowerLost),
        Holes::Lacking { need, room } => {
            if staging.is_fresh() {
                unreachable!()
            }
            Ok(WriteBegun::RoundOver { need, room })
        }
        Holes::Filled => begin_filled(alloc, k, staging, files, who, mode, target, bytes, power),
    }
}
