//! A logged call that is out of a World, as far as it came.
use posix_types::Who;
use world_view_laws::{FilledJob, Job};

/// How far a logged call came.
#[derive(Debug, Drop)]
pub enum Work {
    /// It began: its blocks are lent, to be filled.
    Began(Job),
    /// Its blocks are filled, durable.
    Filled(FilledJob),
    /// It claimed the slot of this number.
    Claimed(FilledJob, u32),
    /// Its entry is stored into the line of this slot.
    Stored(FilledJob, u32),
    /// Its entry is durable there.
    Persisted(FilledJob, u32),
}

/// A logged call that is out: its caller, and how far it came.
#[derive(Debug, Drop)]
pub struct Held {
    pub who: Who,
    pub work: Work,
}
