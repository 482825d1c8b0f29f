//! A job ends: it finishes, or is given up.
ghost use Rattle.std.specs.Prelude.{◌≡◌, ◌≢◌, ◌+◌, ◌<◌, ◌≤◌, ◌^◌, AllPairs, false, true, length};
ghost use Rattle.posix_types.specs.declared.call.Mode.{Mode};
ghost use Rattle.world_parts.specs.list_laws.Members.{In};
ghost use Rattle.world_parts.specs.pm_model.Powers.{is_on, Steps, Supply};
ghost use Rattle.world_parts.specs.in_flight.live_model.Standing as standing;
ghost use Rattle.world_parts.specs.in_flight.world_model.Jobs.{put_bytes_of};
ghost use Rattle.world_parts.specs.world_view_laws.Begins.{IsFilledOut};
ghost use Rattle.world_parts.specs.world_view_laws.Jobs.{over_by, GivesUp, IsOfWorld, LosesFinish};
ghost use Rattle.world_parts.specs.world_view_laws.write_end.in_place.Placing.{CanPlace};
ghost use Rattle.world_parts.specs.world_view_laws.write_end.in_place.Gaps.{IsClearPaid};
ghost use Rattle.world_parts.specs.world_view_laws.write_end.Landing.{front_bytes, front_end, front_start, IsFrontAnswer};
ghost use Rattle.world_parts.specs.Adds.{MayAdd};
ghost use Rattle.world_parts.specs.Answers.{IsFinished};
ghost use Rattle.world_parts.specs.Seen.{seen, IsKept};
ghost use Rattle.world_rounds.specs.Returned.{IsReturned};

use crate::laws;
use layout_model::Draft;
use pm_lines::Power;
use posix_tables::outcomes::answer;
use posix_types::{Call, Mode, Reply, Who};
use world_parts::{
    Commit, FileTable, FilledJob, Finished, Full, JobOut, KSplit, Over, Parts, add, finish_write,
    give_up_write, place_front, place_of, settle_blocks, take_job,
};

// How many bytes a write puts.
fn put_count(call: &Call) -> u64
    ensures { result ≡ length (put_bytes_of call.now) }
{
    match call {
        Call::Write(_, data) | Call::Pwrite(_, _, data) => data.len() as u64,
        _ => 0,
    }
}

// The call of the job of a caller; no two are of one caller.
fn call_of(pending: &[JobOut], who: Who) -> &Call
    requires callers { AllPairs standing.AreOfTwoThreads pending.now }
    requires out { (q : standing.JobOut) × In q pending.now × (q.who ≡ who) }
    ensures { (q : standing.JobOut) → In q pending.now → q.who ≡ who → result.now ≡ q.call }
{
    match place_of(pending, who) {
        Some(place) => {
            let job = &pending[place];
            &job.call
        }
        None => unreachable!(),
    }
}

// Writes what a landed write has still to write in place, by the mode: in strict mode nothing.
fn write_front(
    k: &mut KSplit,
    files: &FileTable,
    mode: Mode,
    draft: &Draft,
    call: &Call,
    power: &mut Power,
) -> Commit
    requires on { is_on power.old ≡ true }
    requires can { mode ≢ Mode.Strict → CanPlace k.old files.now draft.now.ino
        (front_start draft.now call.now) (front_bytes draft.now call.now) }
    requires ends { front_end draft.now ≤ draft.now.size }
    ensures steps { Steps (2 ^ 15) power.old power.new }
    ensures paid { IsClearPaid power.new result }
    ensures spared { mode ≡ Mode.Strict → power.new ≡ power.old }
    ensures none { mode ≡ Mode.Strict → (result ≡ Commit.Done) × (k.new ≡ k.old) }
    ensures answer { mode ≢ Mode.Strict
        → IsFrontAnswer k.old k.new files.now draft.now call.now result }
{
    match mode {
        Mode::Strict => Commit::Done,
        Mode::Sync | Mode::Posix => place_front(k, files, draft, call, power),
    }
}

// The power went as a job ended.
fn cut_off(p: &mut Parts)
    requires { p.old.acts + 1 < 2 ^ 64 }
    ensures { p.new ≡ record p.old { acts = p.old.acts + 1; lost = true } }
{
    p.acts += 1;
    p.lost = true;
}

// The job of a caller returns with how many bytes it put: its item stands at the end of the history.
fn return_job(p: &mut Parts, who: Who)
    requires callers { AllPairs standing.AreOfTwoThreads p.old.pending.items }
    requires out { (q : standing.JobOut) × In q p.old.pending.items × (q.who ≡ who) }
    requires may { MayAdd p.old who }
    ensures { IsReturned who p.old p.new }
{
    let Some(job) = take_job(&mut p.pending, who) else {
        unreachable!()
    };
    let outcome = answer(Reply::Count(put_count(&job.call)));
    add(p, job.who, job.call, outcome);
}

/// A job finishes while the power is on: its item stands at the end of the history. In strict mode its call has
/// acted at once; in sync mode its bytes before the first block of its entry are written in place first, and where
/// the power goes on the way, its claim counts, and it stays out.
///
/// # Steps
///
/// At most 2^15; none in strict mode.
pub fn finish_on(p: &mut Parts, job: FilledJob, slot: u32, power: &mut Power) -> Finished
    requires on { is_on power.old ≡ true }
    requires kept { IsKept p.old }
    requires awake { p.old.lost ≡ false }
    requires out { p.old.lines_out ≡ true }
    requires job { IsOfWorld (seen p.old) job }
    ensures kept { IsKept p.new }
    ensures steps { Steps (2 ^ 15) power.old power.new }
    ensures spared { p.old.mode ≡ Mode.Strict → power.new ≡ power.old }
    ensures finished { IsFinished job slot (seen p.old) (seen p.new) power.new result }
{
    laws::finished_writes_end_with_their_files();
    let who = job.who();
    let draft = *job.draft();
    let call = call_of(&p.pending, who);
    finish_write(
        &mut p.k,
        &mut p.tables,
        &mut p.files,
        &mut p.claims,
        call,
        job,
        slot,
    );
    match write_front(&mut p.k, &p.files, p.mode, &draft, call, power) {
        Commit::PowerLost => {
            cut_off(p);
            Finished::PowerLost
        }
        Commit::Done => {
            return_job(p, who);
            Finished::Done
        }
    }
}

/// A job finishes once the power went: its blocks come back, its claim counts, and it stays out.
pub fn finish_off(p: &mut Parts, job: FilledJob, slot: u32)
    requires kept { IsKept p.old }
    requires gone { p.old.lost ≡ true }
    requires out { p.old.lines_out ≡ true }
    requires job { IsOfWorld (seen p.old) job }
    ensures kept { IsKept p.new }
    ensures acts { p.new.acts ≡ p.old.acts }
    ensures finished { (q : standing.JobOut) → IsFilledOut (seen p.old) q job
        → (power : Supply) → LosesFinish slot q (seen p.old) (seen p.new) power }
{
    let draft = *job.draft();
    settle_blocks(&mut p.k, job.into_loans());
    p.claims.push_reserved((u64::from(slot), draft));
}

// What ended the round: the first cause stays, and else it is the claim that found no line.
fn ended_by(over: Option<Over>, full: Full) -> Over
    ensures { result ≡ over_by over full }
{
    match over {
        Some(first) => first,
        None => Over::Lap(full),
    }
}

/// A job is given up while the power is on: its call is back at its start, and the round is over, with what ended it
/// first.
pub fn give_up_on(p: &mut Parts, job: FilledJob, full: Full)
    requires kept { IsKept p.old }
    requires awake { p.old.lost ≡ false }
    requires out { p.old.lines_out ≡ true }
    requires job { IsOfWorld (seen p.old) job }
    ensures kept { IsKept p.new }
    ensures given { (q : standing.JobOut) → IsFilledOut (seen p.old) q job
        → GivesUp full q (seen p.old) (seen p.new) }
{
    let taken = take_job(&mut p.pending, job.who());
    drop(taken);
    give_up_write(&mut p.k, &mut p.staging, job);
    p.over = Some(ended_by(p.over, full));
    p.given_up += 1;
}

/// A job is given up once the power went: its blocks come back, its call is back at its start, and the round is over, with
/// what ended it first.
pub fn give_up_off(p: &mut Parts, job: FilledJob, full: Full)
    requires kept { IsKept p.old }
    requires gone { p.old.lost ≡ true }
    requires out { p.old.lines_out ≡ true }
    requires job { IsOfWorld (seen p.old) job }
    ensures kept { IsKept p.new }
    ensures given { (q : standing.JobOut) → IsFilledOut (seen p.old) q job
        → GivesUp full q (seen p.old) (seen p.new) }
{
    let taken = take_job(&mut p.pending, job.who());
    drop(taken);
    settle_blocks(&mut p.k, job.into_loans());
    let ended = ended_by(p.over, full);
    p.over = Some(ended);
    p.given_up += 1;
}
