//! What files have applied counts anew where it is high.
ghost use Rattle.std.specs.Prelude.{◌≡◌, ◌<◌, ◌^◌, ◌↔◌, true, IsTrue};
ghost use Rattle.k_check.specs.image_model.Volume.{inode};
ghost use Rattle.k_check.specs.pm_model.Powers.{is_on};
ghost use Rattle.log_replay.specs.Replays.{ShowsTheSame};
ghost use Rattle.k_check.specs.pm_model.Images.{Follows};
ghost use Rattle.log_replay.specs.Sheds.{IsSameDevice};
ghost use Rattle.log_replay.specs.Quiet.{IsQuiet, IsSpent, IsSweepPaid, OnDone};
ghost use Rattle.log_replay.specs.Resets.{AreReset, IsResetOne, MayReset};

use crate::FIRST_FILE;
use crate::stops::Stop;
use pm_lines::Power;
use staging_files::{KFault, KSplit};
use std::alloc::Global;

// The highest order that a file may have applied.
const MOST_APPLIED: u64 = 1 << 62;

// Whether an inode has applied an entry of a high order.
fn is_high(k: &KSplit, ino: u32) -> bool
    requires { IsQuiet k.now }
    ensures { IsTrue result ↔ (2 ^ 62 < (inode k.now.volume ino).applied) }
{
    match k.node(ino) {
        Some(node) => node.applied > MOST_APPLIED,
        None => false,
    }
}

// An inode has applied nothing where it was of a high order.
fn reset_one(alloc: Global, k: &mut KSplit, ino: u32, power: &mut Power) -> Result<(), Stop>
    requires on { is_on power.old ≡ true }
    requires may { MayReset k.old }
    ensures spent { IsSpent power.old power.new }
    ensures paid { IsSweepPaid power.new result }
    ensures done { OnDone result (IsResetOne ino k.old k.new) }
    ensures images { Follows (ShowsTheSame k.old.volume.geometry) k.old.cells k.new.cells }
    ensures device { IsSameDevice k.old.cells k.new.cells }
{
    if !is_high(k, ino) {
        return Ok(());
    }
    match k.reset_applied(alloc, ino, power) {
        Ok(()) => Ok(()),
        Err(KFault::PowerLost) => Err(Stop::PowerLost),
        Err(KFault::NoMemory) => Err(Stop::NoMemory),
        Err(_) => unreachable!(),
    }
}

/// Each file of which the last entry that it has applied is of an order above 2^62 has applied none then, by a
/// change of its own; no line of the log is an entry.
/// # Errors
///
/// `PowerLost` exactly where the power is off at the return; else `NoMemory` alone.
pub(crate) fn reset(alloc: Global, k: &mut KSplit, power: &mut Power) -> Result<(), Stop>
    requires { MayReset k.old }
    ensures spent { IsSpent power.old power.new }
    ensures paid { IsSweepPaid power.new result }
    ensures done { OnDone result (AreReset k.old k.new) }
    ensures images { Follows (ShowsTheSame k.old.volume.geometry) k.old.cells k.new.cells }
    ensures device { IsSameDevice k.old.cells k.new.cells }
{
    if !power.on() {
        return Err(Stop::PowerLost);
    }
    let end = k.geometry().inodes;
    for ino in FIRST_FILE..end {
        reset_one(alloc, k, ino, power)?;
    }
    Ok(())
}
