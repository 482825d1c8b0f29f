//! How many calls of each caller have returned.
ghost use Rattle.std.specs.Prelude.{◌≡◌, ◌+◌, ◌^◌, ◌<◌, [], false};
ghost use Rattle.live_model.specs.commute_laws.posix_tables.Open.{same_who};
ghost use Rattle.in_flight.specs.Counters.{count_for, AreCounts, IsCounted};

use posix_types::Who;

/// How many calls of each caller have returned: of the set-up, and of 8 threads.
#[derive(Clone, Copy)]
pub struct Counters {
    pub setup: u32,
    pub threads: [u32; 8],
}

/// No call has returned.
pub fn no_calls() -> Counters
    ensures { AreCounts result.setup result.threads [] }
{
    Counters {
        setup: 0,
        threads: [0; 8],
    }
}

/// How many calls of a caller have returned.
pub fn calls_made(counters: &Counters, who: Who) -> usize
    ensures { result ≡ count_for counters.now.setup counters.now.threads who }
{
    match who {
        Who::Setup => counters.setup as usize,
        Who::Thread(number) => {
            let number = number as usize;
            if number < counters.threads.len() {
                counters.threads[number] as usize
            } else {
                0
            }
        }
    }
}

/// Counts one call more of a caller.
pub fn count_call(counters: &mut Counters, who: Who)
    requires caller { IsCounted who }
    requires room { count_for counters.old.setup counters.old.threads who + 1 < 2 ^ 32 }
    ensures own { count_for counters.new.setup counters.new.threads who
        ≡ count_for counters.old.setup counters.old.threads who + 1 }
    ensures others { (other : Who) → same_who who other ≡ false
        → count_for counters.new.setup counters.new.threads other
        ≡ count_for counters.old.setup counters.old.threads other }
{
    match who {
        Who::Setup => counters.setup += 1,
        Who::Thread(number) => counters.threads[number as usize] += 1,
    }
}
