//! What a worker of a round does: how it goes on, what it hands back, and that each answer of the World is a move that the turn
//! allows it.
//!
//! A worker stands by its view idle, with a job, or stopped. What it asks of the World may be asked, and what the World answers
//! may be left (`each_answer_may_be_left`). So it goes from look to look, each job paid for by an item and seen in its seat of
//! the log, to one of its ends (`a_worker_goes_on`).

ghost use Rattle.thread_laws.specs.MovesLaws.{BegunMayLeave, CutKeepsJob, FilledIsHere, FilledKeepsJob, FinishedMayLeave, FoundMayLeave, GivenUpMayLeave, GoneMayBeFound, IdleMayBegin, JobIsHere, LostMayLeave};
ghost use Rattle.thread_laws.specs.WorksLaws.{ComesByJob, ComesByLook, ComesFirst, EndsByFinish, EndsByFull, EndsByLook, EndsUnappended, EndsUnfilled, OwnIsBounded};

use round_laws::{FilledJob, Job};

/// How a worker goes on behind a look at its next call.
#[derive(Drop)]
pub enum Next {
    /// Its call returned.
    On,
    /// It waits for a job of another.
    Wait,
    /// It stops.
    Over,
    /// It has a job.
    Job(Job),
}

/// What a worker hands back: nothing, or the job that it still has, whose power went.
#[derive(Drop)]
pub enum Worked {
    /// It has none.
    Ended,
    /// Its power went before the job was filled.
    Job(Job),
    /// Its power went in the append.
    Filled(FilledJob),
}

/// Each answer of the World may be left.
pub fn each_answer_may_be_left()
    ensures idle { IdleMayBegin }
    ensures job { JobIsHere }
    ensures filled { FilledIsHere }
    ensures fills { FilledKeepsJob }
    ensures cut { CutKeepsJob }
    ensures begun { BegunMayLeave }
    ensures finished { FinishedMayLeave }
    ensures given_up { GivenUpMayLeave }
    ensures lost { LostMayLeave }
    ensures found { FoundMayLeave }
    ensures gone { GoneMayBeFound }
{}

/// A worker goes on, and ends.
pub fn a_worker_goes_on()
    ensures first { ComesFirst }
    ensures look { ComesByLook }
    ensures job { ComesByJob }
    ensures ends { EndsByLook }
    ensures unfilled { EndsUnfilled }
    ensures unappended { EndsUnappended }
    ensures full { EndsByFull }
    ensures finish { EndsByFinish }
    ensures bound { OwnIsBounded }
{}
