//! Gathering: all files are published, the staging files give up their blocks, and a new lap begins.
ghost use Rattle.std.specs.Prelude.{◌≡◌, ◌+◌, ◌*◌, ◌^◌, true, false};
ghost use Rattle.fsync_relink.specs.Others.{GoesOn};
ghost use Rattle.fsync_relink.specs.Publishes.{IsPublishPaid};
ghost use Rattle.staging_files.specs.k_split.Laps.{HasNextLap};
ghost use Rattle.file_table.specs.pm_model.Images.{Follows};
ghost use Rattle.file_table.specs.pm_model.Powers.{is_on, Steps};
ghost use Rattle.staging_files.specs.GivesUp.{AllStagedSingle};
ghost use Rattle.log_checkpoint.specs.Gathers.{IsGatherAnswer, IsLapAnswer, MayGather, file_count, total_runs};
ghost use Rattle.log_checkpoint.specs.Logged.{KeepsLoggedContent};

use crate::laws;
use crate::publishing::publish_all;
use file_table::FileTable;
use pm_lines::Power;
use staging_files::{Commit, KSplit, Staging};
use std::alloc::{AllocError, Global};

// The staging files give up their blocks, and a new lap begins.
fn begin_bare_lap(
    alloc: Global,
    k: &mut KSplit,
    staging: &mut Staging,
    power: &mut Power,
) -> Result<Commit, AllocError>
    requires on { GoesOn k.old }
    requires single { AllStagedSingle k.old }
    requires next { HasNextLap k.old }
    ensures steps { Steps (2 ^ 17 + 2 ^ 15) power.old power.new }
    ensures paid { IsPublishPaid power.new result }
    ensures answer { IsLapAnswer k.old staging.new k.new result }
{
    let commit = staging.give_up_all(alloc, k, power)?;
    match commit {
        Commit::PowerLost => Ok(Commit::PowerLost),
        Commit::Done => Ok(k.new_lap(power)),
    }
}

/// Publishes all files, lets all staging files give up their blocks, and begins a new lap of the log,
/// so that no entry of the lap before is valid.
///
/// No word of a block of a staging file has two candidates, so that none is lent. The log base is at
/// most 2^63 less the number of log lines. `PowerLost` comes exactly where the power is off at the
/// return. Whatever happens, each image has the content of the image before, where the log of that one
/// holds the runs of all files.
///
/// # Errors
///
/// Out of memory. K-Split, staging and table are only to be dropped then.
///
/// # Steps
///
/// At most 2^15 for each run and for each file, and five times 2^15.
pub fn gather(
    alloc: Global,
    k: &mut KSplit,
    staging: &mut Staging,
    files: &mut FileTable,
    power: &mut Power,
) -> Result<Commit, AllocError>
    requires awake { k.old.lost ≡ true → is_on power.old ≡ false }
    requires unbatched { k.old.lost ≡ false → k.old.batched ≡ false }
    requires may { k.old.lost ≡ false → MayGather files.old k.old }
    requires single { k.old.lost ≡ false → AllStagedSingle k.old }
    requires next { k.old.lost ≡ false → HasNextLap k.old }
    ensures steps { Steps (2 ^ 15 * (total_runs files.old + file_count k.old.volume + 5))
        power.old power.new }
    ensures paid { IsPublishPaid power.new result }
    ensures answer { IsGatherAnswer files.old k.old staging.new files.new k.new result }
    ensures content { Follows (KeepsLoggedContent files.old k.old.volume) k.old.cells k.new.cells }
{
    laws::images_have_the_old_or_the_new_content();
    if k.is_lost() || !power.on() {
        return Ok(Commit::PowerLost);
    }
    let commit = publish_all(alloc, k, files, power)?;
    match commit {
        Commit::PowerLost => Ok(Commit::PowerLost),
        Commit::Done => begin_bare_lap(alloc, k, staging, power),
    }
}
