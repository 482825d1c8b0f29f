//! Holes of a file are filled while writes are in flight.
//!
//! Lemmas alone. A hole reads zero, and so does the block that it gets: no call sees a change. The layer above may rely on
//! this: where K-Split, the open files, the staging, what is kept of files and the jobs that are out stand together, and none
//! of these jobs is of the file, they stand together in the same state when it is done (`StandsFilled`); and where the power
//! goes in it, each image, with log lines and blocks put back, is kept (`KeepsFilledCut`).

ghost use Rattle.live_step_laws.specs.FillsLaws.{FillsAsAsked, KeepsFilledCut, StandsFilled};

/// What K-Split makes of the volume where it fills holes.
pub fn holes_are_filled_as_asked()
    ensures { FillsAsAsked }
{}

/// Holes are filled in flight.
pub fn holes_are_filled_in_flight()
    ensures done { StandsFilled }
    ensures cut { KeepsFilledCut }
{}
