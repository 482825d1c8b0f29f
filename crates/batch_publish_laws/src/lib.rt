//! POSIX mode over K-Split: what publishes lengths, cuts files and ends.
//!
//! Definitions and laws, no code. A change of maps that gathers joins the batch as it is, or begun anew behind a commit: either
//! way the device goes on at that base, by the words that the change left, and from there on it is a change that writes no word
//! more (`Joins`). What such a change leaves is told by two Worlds and its blocks (`Changes`): then the batch stands behind it
//! (`LeavesBatch`), the device goes on where no call ends or a quiet one (`BatchGoesOn`), and where the batch is committed
//! before the call returns all of the history is kept (`BatchIsCommitted`). One file is made anew so (`Renewals`): all its
//! staged runs go to it by one landing, with the published length or with the one in memory (`Moves`); it gets a size, by a
//! truncate or an open that cuts it, or has its length published by the size alone (`Sizes`). Calls of these are whole in
//! `Closings`: `close` publishes into the batch, `fsync` commits it. A Checkpoint ends with the next lap (`Laps`), and an
//! unmount sends the lengths of all files to the medium in one commit (`Lengths`).
//!
//! Wherever the power goes in such a change, in the commit behind it, in a new lap or in an unmount, each image with no entry
//! in its log keeps the promise (`JoinLossIsKept`, `SyncLossIsKept`, `LapLossIsKept`, `LengthsLossIsKept`);
//! a commit before it is `batch_laws`'.
//!
//! Stands on `batch_laws`, `posix_mode_laws`, `live_model` and `world_write_laws`.
#![tactic(auto)]

ghost use Rattle.batch_publish_laws.specs.Changes.{BatchGoesOn, BatchIsCommitted, ChangeLeavesBatch};
ghost use Rattle.batch_publish_laws.specs.Closings.{ClosePublishes, FsyncPublishes, PublishingLeavesBatch, SyncLossIsKept};
ghost use Rattle.batch_publish_laws.specs.Joins.{JoinGoesOn, JoinLossIsKept};
ghost use Rattle.batch_publish_laws.specs.Laps.{LapGoesOn, LapLossIsKept};
ghost use Rattle.batch_publish_laws.specs.Lengths.{LengthsGoOut, LengthsLossIsKept};
ghost use Rattle.batch_publish_laws.specs.Moves.{LandingTakesFew, PublishLeavesBatch, RelinkGoesOn, RelinkKeepsStaged};
ghost use Rattle.batch_publish_laws.specs.Sizes.{OpenCutGoesOn, SizeKeepsStaged, SizeLeavesBatch, SizeTakesNone, TruncateGoesOn};
ghost use Rattle.batch_publish_laws.specs.Renewals.{RenewalLeavesBatch};

/// A change of maps that gathers: the batch stands behind it, and the device goes on, also where the batch is committed then.
pub fn changes_of_maps_gather()
    ensures gathered { ChangeLeavesBatch }
    ensures goes_on { BatchGoesOn }
    ensures committed { BatchIsCommitted }
{}

/// A file of the batch is anew, with whatever was staged of it: relinked, cut or lengthened.
pub fn files_are_anew()
    ensures { RenewalLeavesBatch }
{}

/// All staged runs of a file are relinked by one change: with the published length, and with the length in memory.
pub fn runs_are_relinked()
    ensures takes { LandingTakesFew }
    ensures kept { RelinkGoesOn }
    ensures published { PublishLeavesBatch }
    ensures staged { RelinkKeepsStaged }
{}

/// A file gets a size: a truncate, an open that cuts the file, and a length that is published by the size alone.
pub fn sizes_are_set()
    ensures takes { SizeTakesNone }
    ensures truncated { TruncateGoesOn }
    ensures opened { OpenCutGoesOn }
    ensures published { SizeLeavesBatch }
    ensures staged { SizeKeepsStaged }
{}

/// The length of a file is published by a whole call: into the batch by `close`, and by `fsync`, which commits it then.
pub fn calls_publish_lengths()
    ensures gathered { PublishingLeavesBatch }
    ensures closed { ClosePublishes }
    ensures synced { FsyncPublishes }
    ensures lost { SyncLossIsKept }
{}

/// A change of maps joins the batch, as it is or behind a commit of it; the promise is kept where the power goes in it.
pub fn changes_of_maps_join()
    ensures joined { JoinGoesOn }
    ensures lost { JoinLossIsKept }
{}

/// The next lap of the log begins behind a Checkpoint; the promise is kept where the power goes in it.
pub fn laps_begin()
    ensures begun { LapGoesOn }
    ensures lost { LapLossIsKept }
{}

/// An unmount sends the lengths of all files to the medium; the promise is kept where the power goes in it.
pub fn lengths_go_out()
    ensures out { LengthsGoOut }
    ensures lost { LengthsLossIsKept }
{}
