//! The log's next lap, so that no line of the log is an entry of it.
ghost use Rattle.std.specs.Prelude.{◌≡◌, ◌+◌, ◌*◌, ◌^◌, ◌≤◌, ◌<◌};
ghost use Rattle.world_image_laws.specs.pm_model.Powers.{Steps};
ghost use Rattle.k_split.specs.Answers.{IsCommitPaid};
ghost use Rattle.k_split.specs.Laps.{IsBaseAnswer, IsRestartAnswer, next_base};
ghost use Rattle.log_replay.specs.Sheds.{IsAtRest};

use k_split::{Commit, KSplit};
use pm_lines::Power;

// The highest log base that rises: above it the log begins anew.
const MOST_BASE: u64 = 1 << 62;

/// Begins the next lap of the log: its base rises by the number of log lines; where it is above 2^62,
/// the log's lines become zero and its base 1. At most 9 steps a log line and 257.
///
/// `PowerLost` comes exactly where the power is off at the return: what each image has then is said by
/// `KSplit::new_lap` and `KSplit::restart_log`.
pub fn begin_lap(k: &mut KSplit, power: &mut Power) -> Commit
    requires { IsAtRest k.old }
    ensures steps { Steps (9 * k.old.volume.geometry.log + 257) power.old power.new }
    ensures paid { IsCommitPaid power.new result }
    ensures rises { k.old.volume.base ≤ 2 ^ 62
        → IsBaseAnswer (next_base k.old.volume) k.old k.new result }
    ensures anew { 2 ^ 62 < k.old.volume.base → IsRestartAnswer k.old k.new result }
{
    if k.log_base() > MOST_BASE {
        k.restart_log(power)
    } else {
        k.new_lap(power)
    }
}
