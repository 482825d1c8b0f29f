//! After which steps, or behind which events, the power goes.
use crate::cases::Case;
use crate::losses::outcome_at;
use crate::scripts::image_at;
use std::alloc::Global;

/// What is counted until the power goes.
#[derive(Clone, Copy, Debug)]
pub enum Unit {
    /// Device steps.
    Step,
    /// Events of the threads.
    Event,
}

impl Unit {
    /// The option of a command line that says it.
    pub fn word(self) -> &'static str {
        match self {
            Unit::Step => "stop",
            Unit::Event => "cut",
        }
    }
}

/// Each number of steps, or of events, from `first` to `last` that is `every` above the one before.
#[derive(Clone, Copy, Debug)]
pub struct Stops {
    pub unit: Unit,
    pub first: u64,
    pub last: u64,
    pub every: u64,
}

// How many steps behind the end are tried.
const BEHIND: u64 = 64;

// More steps than any run has.
const ALL: u64 = 1_000_000_000;

// For what steps are sought.
#[derive(Drop)]
enum Sought {
    // For so many calls to return.
    Calls(usize),
    // For this image, which is that of a run that loses nothing.
    Image(Vec<u8>),
}

// Whether so many steps are enough.
fn is_enough(alloc: Global, case: &Case, sought: &Sought, steps: u64) -> bool {
    match sought {
        Sought::Calls(calls) => {
            outcome_at(alloc, case, Unit::Step, steps, "oldest").returned >= *calls
        }
        Sought::Image(image) => image_at(alloc, case, steps) == *image,
    }
}

// A number of steps that is enough, above one that may be too low.
fn enough(alloc: Global, case: &Case, sought: &Sought, low: u64) -> Option<u64> {
    let mut more: u64 = 64;
    for _ in 0..30 {
        let steps = low.saturating_add(more);
        if is_enough(alloc, case, sought, steps) {
            return Some(steps);
        }
        more = more.saturating_mul(2);
    }
    None
}

// The least number of steps, from `low` on, that is enough. So are all numbers above it.
fn least(alloc: Global, case: &Case, sought: &Sought, mut low: u64) -> Option<u64> {
    let mut high = enough(alloc, case, sought, low)?;
    for _ in 0..64 {
        if low >= high {
            return Some(high);
        }
        let middle = low.midpoint(high);
        if is_enough(alloc, case, sought, middle) {
            high = middle;
        } else {
            low = middle.saturating_add(1);
        }
    }
    None
}

// The least number of steps that leaves the image of a run that loses nothing.
fn whole_behind(alloc: Global, case: &Case) -> Option<u64> {
    let image = image_at(alloc, case, ALL);
    if image.is_empty() {
        return None;
    }
    least(alloc, case, &Sought::Image(image), 0)
}

impl Stops {
    /// From the first one to some steps behind the end of the unmount, so many apart. Its last change is that of the log's base:
    /// from there on a loss leaves the image of a run that loses nothing, and earlier ones leave an earlier base. None where the script
    /// is not run.
    pub fn of_all(alloc: Global, case: &Case, first: u64, every: u64) -> Option<Stops> {
        let last = whole_behind(alloc, case)?.saturating_add(BEHIND);
        Some(Stops {
            unit: Unit::Step,
            first,
            last,
            every,
        })
    }

    /// Each step of one call, counted from 0: from the return of the call before it to its own. None where it does not return.
    pub fn of_call(alloc: Global, case: &Case, call: usize) -> Option<Stops> {
        let next = call.saturating_add(1);
        let first = least(alloc, case, &Sought::Calls(call), 0)?;
        let last = least(alloc, case, &Sought::Calls(next), first)?;
        Some(Stops {
            unit: Unit::Step,
            first,
            last,
            every: 1,
        })
    }

    /// Behind each event from the first one to the last.
    pub fn of_events(first: u64, last: u64) -> Stops {
        Stops {
            unit: Unit::Event,
            first,
            last,
            every: 1,
        }
    }
}
