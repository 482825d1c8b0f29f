//! What is out of a World between two events.
ghost use Rattle.std.specs.Prelude.{◌≡◌, ◌≢◌, ◌++◌, ℕ, [], IfNone, IfOk, IfSome, Some, slice_get};
ghost use Rattle.std.specs.List.{cons_option};
ghost use Rattle.run_laws.specs.posix_tables.Open.{same_who};
ghost use Rattle.run_laws.specs.Held as holding;
ghost use Rattle.run_laws.specs.declared.held.Held as held;

use pm_lines::Line;
use posix_types::Who;
use run_laws::{FilledJob, Held, Job, RoundLog, Work};
use std::alloc::{AllocError, Global};

/// The log of the round, if one goes on, and the logged calls that have not finished, in the order of their
/// beginning.
#[derive(Drop)]
pub struct Out {
    pub log: Option<RoundLog>,
    pub jobs: Vec<Held>,
}

/// How an event ended: it is done; a call found too little space, so that the round is over, which is no event; or the
/// power went.
#[derive(Clone, Copy)]
pub enum Acted {
    Event,
    RoundOver,
    PowerLost,
}

/// The lines that are out, if a round goes on.
pub(crate) fn lines_of(alloc: Global, log: Option<RoundLog>) -> Vec<Line>
    ensures { result.items ≡ holding.lines_in log }
{
    match log {
        Some(log) => log.close(),
        None => Vec::new(alloc),
    }
}

// The job of a work is put among those that are to be filled, or the filled ones.
fn part(began: &mut Vec<Job>, filled: &mut Vec<FilledJob>, work: Work) -> Result<(), AllocError>
    ensures began { IfOk result (λ done. began.new.items ≡ began.old.items ++ cons_option (holding.job_in work) []) }
    ensures filled { IfOk result (λ done. filled.new.items ≡ filled.old.items ++ cons_option (holding.filled_in work) []) }
{
    match work {
        Work::Began(job) => began.push(job)?,
        Work::Filled(job) => filled.push(job)?,
        Work::Claimed(job, _) => filled.push(job)?,
        Work::Stored(job, _) => filled.push(job)?,
        Work::Persisted(job, _) => filled.push(job)?,
    }
    Ok(())
}

/// The jobs that are to be filled, and the filled ones.
pub(crate) fn parted(
    alloc: Global,
    jobs: Vec<Held>,
) -> Result<(Vec<Job>, Vec<FilledJob>), AllocError>
    ensures began { IfOk result (λ parts. parts.0.items ≡ holding.jobs_of jobs.items) }
    ensures filled { IfOk result (λ parts. parts.1.items ≡ holding.filled_of jobs.items) }
{
    let mut began = Vec::with_capacity(alloc, jobs.len())?;
    let mut filled = Vec::with_capacity(alloc, jobs.len())?;
    for held in jobs {
        part(&mut began, &mut filled, held.work)?;
    }
    Ok((began, filled))
}

// Whether two callers are one.
fn is_same(one: Who, other: Who) -> bool
    ensures { result ≡ same_who one other }
{
    one == other
}

/// The place of the job of a caller, if it has one out.
#[tactic(auto, using(crate::proofs::Found::none_more, crate::proofs::Found::none_there, crate::proofs::Found::found_there))]
pub fn place_of(jobs: &[Held], who: Who) -> Option<usize>
    ensures some { IfSome result (λ place. (h : held.Held) × (slice_get jobs.now place ≡ Some h) × (h.who ≡ who)) }
    ensures none { IfNone result ((i : ℕ) (h : held.Held) → slice_get jobs.now i ≡ Some h → h.who ≢ who) }
{
    for (place, held) in jobs.iter().enumerate() {
        if is_same(held.who, who) {
            return Some(place);
        }
    }
    None
}
