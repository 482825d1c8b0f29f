//! Changes of K-Split that write blocks, beside writes in flight.
//!
//! Lemmas alone. A change that gives a file or a staging file a new chain writes blocks that
//! nothing of the volume has (`AreSpare`). The layer above may rely on this: done, the device
//! stands for the state after it (`ChangesDeviceWith`); cut off, each image, once log lines and
//! blocks of jobs are put back, is kept with the call as the last of the unfinished ones
//! (`KeepsPromiseWith`); and log lines at home show the claims still (`KeepsLogHomeWith`). So it is
//! said in `world_image_laws` and `world_image_laws` of changes that write no block.

ghost use Rattle.live_step_laws.specs.ChangesLaws.{ChangesDeviceWith, KeepsLogHomeWith, KeepsPromiseWith};
ghost use Rattle.live_step_laws.specs.FillsLaws.{ChangesDeviceRead, KeepsPromiseRead};

/// A change that writes spare blocks is one beside writes in flight.
pub fn changes_that_write_spare_blocks()
    ensures done { ChangesDeviceWith }
    ensures log { KeepsLogHomeWith }
    ensures cut { KeepsPromiseWith }
    ensures done_read { ChangesDeviceRead }
    ensures cut_read { KeepsPromiseRead }
{}
