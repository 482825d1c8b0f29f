//! Staging files give up their blocks.
ghost use Rattle.log_replay.specs.Replays.{ShowsTheSame};
ghost use Rattle.k_check.specs.pm_model.Images.{Follows};
ghost use Rattle.log_replay.specs.Sheds.{IsSameDevice};
ghost use Rattle.log_replay.specs.Quiet.{IsQuiet, IsSpent, IsSweepPaid, OnDone};
ghost use Rattle.log_replay.specs.Sweeps.{AreUnstaged};

use crate::stops::{Stop, left};
use pm_lines::Power;
use staging_files::{KSplit, Staging};
use std::alloc::Global;

/// All staging files give up their blocks; no entry of the log is live.
///
/// # Errors
///
/// `PowerLost` exactly where the power is off at the return; else `NoMemory` alone.
pub(crate) fn unstage(alloc: Global, k: &mut KSplit, power: &mut Power) -> Result<(), Stop>
    requires { IsQuiet k.old }
    ensures spent { IsSpent power.old power.new }
    ensures paid { IsSweepPaid power.new result }
    ensures done { OnDone result (AreUnstaged k.old k.new) }
    ensures images { Follows (ShowsTheSame k.old.volume.geometry) k.old.cells k.new.cells }
    ensures device { IsSameDevice k.old.cells k.new.cells }
{
    left(Staging::new(alloc).give_up_all(alloc, k, power))
}
