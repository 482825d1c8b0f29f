//! The jobs that are out.
ghost use Rattle.std.specs.Prelude.{◌≡◌, ◌≢◌, IfNone, IfSome, slice_get, Some, AllPairs};
ghost use Rattle.open_files.specs.list_laws.Members.{In};
ghost use Rattle.open_files.specs.posix_tables.Open.{same_who};
ghost use Rattle.live_model.specs.Standing.{AreOfTwoThreads};
ghost use Rattle.live_model.specs.Jobs.{without};

use layout_model::Draft;
use posix_types::{Call, Who};
use std::marker::Model;

/// A job that is out: its caller and call, its entry, and the disk blocks that it was lent, in the order of the
/// entry's blocks.
#[derive(Drop)]
pub struct JobOut {
    pub who: Who,
    pub call: Call,
    pub draft: Draft,
    pub blocks: Vec<u32>,
}

impl Model for JobOut {
    ghost use Rattle.live_model.specs.Standing as standing;

    ghost Value = { standing.JobOut };

    ghost view = { λ p. record { who = p.who; call = p.call; draft = p.draft; blocks = p.blocks.items } };
}

// Whether two callers are one.
pub(crate) fn is_same(one: Who, other: Who) -> bool
    ensures { result ≡ same_who one other }
{
    one == other
}

/// The place of the job of a caller.
pub fn place_of(pending: &[JobOut], who: Who) -> Option<usize>
    ensures some { IfSome result (λ place. (p : _) × (slice_get pending.now place ≡ Some p) × (p.who ≡ who)) }
    ensures none { IfNone result ((p : _) → In p pending.now → p.who ≢ who) }
{
    for (place, job) in pending.iter().enumerate() {
        if is_same(job.who, who) {
            return Some(place);
        }
    }
    None
}

/// Takes the job of a caller out; no two are of one caller.
pub fn take_job(pending: &mut Vec<JobOut>, who: Who) -> Option<JobOut>
    requires { AllPairs AreOfTwoThreads pending.old.items }
    ensures left { pending.new.items ≡ without who pending.old.items }
    ensures some { IfSome result (λ p. In p pending.old.items × (p.who ≡ who)) }
    ensures none { IfNone result ((p : _) → In p pending.old.items → p.who ≢ who) }
{
    match place_of(pending, who) {
        Some(place) => Some(pending.remove(place)),
        None => None,
    }
}
