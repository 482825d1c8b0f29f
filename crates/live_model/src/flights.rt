//! The World in flight: writes out over a device, and what is kept of files beside their inodes.
//!
//! `IsFlying` says when a volume, its cells, the claims of the lap, the jobs that are out and the overlays of
//! files stand together for a state of the calls, in strict mode. Lemmas alone. The layer above may rely on
//! this: a job begins, finishes and is given up in any order beside the others (`FliesBegun`, `FliesFinished`,
//! `FliesLanded`, `FliesGivenUp`), and each file can be read meanwhile (`FliesReadable`). Log lines may be at home or out.

ghost use Rattle.live_model.specs.FlightsLaws.{FliesBegun, FliesFinished, FliesGivenUp, FliesLanded, FliesReadable};

/// Jobs come and go in flight, and files can be read.
pub fn flights_come_and_go()
    ensures begun { FliesBegun }
    ensures finished { FliesFinished }
    ensures landed { FliesLanded }
    ensures given_up { FliesGivenUp }
    ensures readable { FliesReadable }
{}

pub use crate::overlays::{Collection, Filled, FilledJob, Job, StagedBytes, read_bytes};
