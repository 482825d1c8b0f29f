//! A run of staging blocks is reserved while writes are in flight.
//!
//! Lemmas alone. The layer above may rely on this: where K-Split, the staging and the jobs that are
//! out stand together, and the staging hands out a run, by blocks that it keeps as free or by a
//! staging file that K-Split gives its blocks, they stand together with the run out, in the same
//! state and with the same jobs, and the run's blocks are there, none of them lent
//! (`StandsReserved`); and where the power goes in it, each image, once log lines and blocks of
//! jobs are put back, is kept with the call as the last of the unfinished ones (`KeepsReserved`).

ghost use Rattle.live_step_laws.specs.ReservesLaws.{KeepsReserved, StandsReserved};

/// A run is reserved in flight, or the power goes in it.
pub fn a_run_is_reserved_in_flight()
    ensures done { StandsReserved }
    ensures cut { KeepsReserved }
{}

pub use k_split_laws::KSplit;
pub use live_model::{StageFault, StageRun, Staging};
