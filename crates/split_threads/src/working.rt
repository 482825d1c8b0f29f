//! One caller's part of a round: it begins and finishes its calls inside the turn, and fills and appends outside it.
ghost use Rattle.std.specs.Prelude.{◌≡◌, ℕ, false};
ghost use Rattle.oplog_tail.specs.Seats.{SeatView};
ghost use Rattle.thread_laws.specs.Hands.{HandView};
ghost use Rattle.thread_laws.specs.Works.{HasWorked};
ghost use Rattle.split_threads.specs.Workers.{GoesOnOrEnds, HasBegunSoFar, HasFilledSoFar, IsWorker, MayWork};

use crate::gates::Gate;
use crate::turning::{begin_next, drop_job, end_job, tell_loss};
use crate::turns::{HandPass, WorldTurn};
use oplog_tail::{Appended, LogSeat, OpLog, Receipt};
use pm_lines::Power;
use posix_types::Who;
use std::alloc::Global;
use std::sync::Wait;
use std::thread::yield_now;
use thread_laws::{
    Filled, FilledJob, Job, Next, Worked, a_worker_goes_on, each_answer_may_be_left,
};

/// What all workers of a round share.
#[derive(Drop)]
pub struct Shared {
    pub turn: WorldTurn,
    pub log: OpLog,
}

/// What one worker has: its caller, its pass, its seat of the log, and its own power.
#[derive(Drop)]
pub struct Own {
    pub who: Who,
    pub pass: HandPass,
    pub seat: LogSeat,
    pub power: Power,
}

// Calls the gate before an append.
fn before_claim<G: Gate>(gate: &G, who: Who) {
    if let Who::Thread(t) = who {
        gate.before_claim(t);
    }
}

// Calls the gate behind an append that was Done.
fn after_append<G: Gate>(gate: &G, who: Who, receipt: &Receipt) {
    if let Who::Thread(t) = who {
        gate.after_append(t, receipt);
    }
}

// Appends the entry of a filled job, and ends the job by the answer. None: it returned, and the worker goes on.
fn append_job<R: Wait, G: Gate>(
    rt: &R,
    shared: &Shared,
    gate: &G,
    own: &mut Own,
    job: FilledJob,
) -> Option<Worked>
    requires { (i : ℕ) × (first : HandView) × (seat : SeatView)
        × HasFilledSoFar shared.now.turn shared.now.log first seat i own.old job }
    ensures who { own.new.who ≡ own.old.who }
    ensures goes { (i : ℕ) (first : HandView) (seat : SeatView)
        → HasFilledSoFar shared.now.turn shared.now.log first seat i own.old job
        → GoesOnOrEnds shared.now.turn shared.now.log first seat i own.new result }
{
    a_worker_goes_on();
    before_claim(gate, own.who);
    match shared
        .log
        .append(&mut own.seat, &mut own.power, job.draft())
    {
        Appended::Done(receipt) => {
            after_append(gate, own.who, &receipt);
            if end_job(rt, &shared.turn, &mut own.pass, job, receipt.slot()) {
                None
            } else {
                Some(Worked::Ended)
            }
        }
        Appended::Full(full) => Some(drop_job(rt, &shared.turn, &mut own.pass, job, full)),
        Appended::PowerLost => {
            if tell_loss(rt, &shared.turn, &mut own.pass) {
                Some(Worked::Filled(job))
            } else {
                Some(Worked::Ended)
            }
        }
    }
}

// Fills a job that began, and goes on with it. None: it returned, and the worker goes on.
fn run_job<R: Wait, G: Gate>(
    rt: &R,
    shared: &Shared,
    gate: &G,
    own: &mut Own,
    job: Job,
) -> Option<Worked>
    requires fresh { job.lost ≡ false }
    requires begun { (i : ℕ) × (first : HandView) × (seat : SeatView)
        × HasBegunSoFar shared.now.turn shared.now.log first seat i own.old job }
    ensures who { own.new.who ≡ own.old.who }
    ensures goes { (i : ℕ) (first : HandView) (seat : SeatView)
        → HasBegunSoFar shared.now.turn shared.now.log first seat i own.old job
        → GoesOnOrEnds shared.now.turn shared.now.log first seat i own.new result }
{
    each_answer_may_be_left();
    a_worker_goes_on();
    let _draft = job.draft();
    match job.fill(&mut own.power) {
        Filled::PowerLost(job) => {
            if tell_loss(rt, &shared.turn, &mut own.pass) {
                Some(Worked::Job(job))
            } else {
                Some(Worked::Ended)
            }
        }
        Filled::Ready(job) => append_job(rt, shared, gate, own, job),
    }
}

/// One caller's part of a round: it makes its calls one after another, until its script has ended, the round is over, the
/// power is lost, or memory has run out. A call that is logged is filled and appended outside the turn, where all workers
/// may be at once. A worker whose own power ends tells the loss; one whose append finds the log full gives its job up.
///
/// What its pass holds only grows; each pair that it gave to `finish` was claimed through its seat, and is written. With a
/// job its power is off, and the job is that of its pass; without one it had a cause to stop.
pub fn work<R: Wait, G: Gate>(
    rt: &R,
    alloc: Global,
    shared: &Shared,
    gate: &G,
    own: &mut Own,
) -> Worked
    requires { (i : ℕ) × (v : HandView)
        × IsWorker shared.now.turn shared.now.log own.old i v × MayWork own.old v }
    ensures who { own.new.who ≡ own.old.who }
    ensures worked { (i : ℕ) (v : HandView)
        → IsWorker shared.now.turn shared.now.log own.old i v → MayWork own.old v
        → (u : HandView) × IsWorker shared.now.turn shared.now.log own.new i u
        × HasWorked v u own.old.seat own.new.seat own.new.power result }
{
    a_worker_goes_on();
    for _ in rt.forever() {
        match begin_next(rt, alloc, &shared.turn, &mut own.pass, own.who) {
            Next::On => {}
            Next::Wait => yield_now(),
            Next::Over => return Worked::Ended,
            Next::Job(job) => {
                if let Some(worked) = run_job(rt, shared, gate, own, job) {
                    return worked;
                }
            }
        }
    }
    unreachable!()
}
