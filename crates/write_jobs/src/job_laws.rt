//! Jobs on the device.
//!
//! Lemmas alone: what a job's beginning and end make of a device that stands for a state, with its writes in
//! flight. The layer above may rely on this: where the blocks of a job that stands go out, the device stands
//! for the state with the job in flight (`BeginsJob`); where the blocks of a filled job are put back, the device stands for the
//! state after its call, with its entry claimed (`FinishesJob`; in sync mode for that with what is found of it, `LandsJob`); where those of a job that is given up are,
//! it stands for the state as it was (`GivesUpJob`); and the words that a write stages spell the bytes of the
//! file after it (`StagesWhole`, `SpellsWhole`). Log lines may be at home or out.

ghost use Rattle.write_jobs.specs.Laws.{BeginsJob, FinishesJob, GivesUpJob, LandsJob, SpellsWhole, StagesWhole};

/// What a job's beginning and end leave, and what its words spell.
pub fn jobs_come_and_go_on_the_device()
    ensures begins { BeginsJob }
    ensures finishes { FinishesJob }
    ensures lands { LandsJob }
    ensures given_up { GivesUpJob }
    ensures bytes { StagesWhole }
    ensures words { SpellsWhole }
{}

pub use crate::jobs::{Filled, FilledJob, Job, StagedBytes};
