//! A device is settled: nameless files go, and the log's next lap begins.
ghost use Rattle.std.specs.Prelude.{◌+◌, ◌*◌};
ghost use Rattle.world_image_laws.specs.pm_model.Images.{words_of};
ghost use Rattle.world_image_laws.specs.pm_model.Powers.{Steps};
ghost use Rattle.log_replay.specs.Sheds.{IsSameDevice, IsSettled, MaySettle, OnCommit, StaysShown};
ghost use Rattle.k_split.specs.Answers.{IsCommitPaid};

use crate::settling::laps::begin_lap;
use crate::settling::nameless::drop_nameless;
use k_split::{Commit, KSplit};
use pm_lines::Power;

/// Settles a device of whose log no entry is live: files go to which no name leads, and the log's next lap
/// begins. Its content stays. It takes no memory. `PowerLost` comes exactly where the power is off at the return.
/// Done or not, each honest image has the content of the image before.
pub fn settle(k: &mut KSplit, power: &mut Power) -> Commit
    requires { MaySettle k.old }
    ensures steps { Steps (256 * k.old.volume.geometry.inodes
        + 9 * k.old.volume.geometry.log + 257) power.old power.new }
    ensures paid { IsCommitPaid power.new result }
    ensures done { OnCommit result
        (IsSettled k.old.volume.geometry (words_of k.old.cells) k.new) }
    ensures images { StaysShown k.old.volume.geometry (words_of k.old.cells) k.new.cells }
    ensures device { IsSameDevice k.old.cells k.new.cells }
{
    match drop_nameless(k, power) {
        Commit::PowerLost => Commit::PowerLost,
        Commit::Done => begin_lap(k, power),
    }
}
