//! Maps lose what they have past the ends of files.
ghost use Rattle.std.specs.Prelude.{◌≡◌, true, IfNone, IfSome, Ok};
ghost use Rattle.k_check.specs.image_model.Volume.{inode};
ghost use Rattle.k_split.specs.k_map_plans.Plans.{IsLiveFile};
ghost use Rattle.staging_files.specs.k_split.MapChanges.{IsSizeAnswer};
ghost use Rattle.k_check.specs.pm_model.Powers.{is_on};
ghost use Rattle.log_replay.specs.Replays.{ShowsTheSame};
ghost use Rattle.k_check.specs.pm_model.Images.{Follows};
ghost use Rattle.log_replay.specs.Sheds.{IsSameDevice};
ghost use Rattle.log_replay.specs.Quiet.{IsQuiet, IsSpent, IsSweepPaid, OnDone};
ghost use Rattle.log_replay.specs.Sweeps.{AreTrimmed, EndsInTime, IsTrimmedOne};

use crate::FIRST_FILE;
use crate::stops::Stop;
use block_counts::blocks_for;
use layout_model::Kind;
use pm_lines::Power;
use staging_files::{KFault, KSplit};
use std::alloc::Global;

// The length of a file whose map goes past its end; none of one that ends in time.
fn length_passed(k: &KSplit, ino: u32) -> Option<u64>
    ensures some { IfSome result
        (λ size. IsLiveFile ino k.now.volume × (size ≡ (inode k.now.volume ino).size) × ¬ EndsInTime k.now.volume ino) }
    ensures none { IfNone result (EndsInTime k.now.volume ino) }
{
    let Some(node) = k.node(ino) else {
        return None;
    };
    let Some(map) = k.map(ino) else {
        return None;
    };
    if node.kind == Kind::File && u64::from(map.end()) > blocks_for(node.size) {
        Some(node.size)
    } else {
        None
    }
}

// A file gets its own length again.
fn cut_file(
    alloc: Global,
    k: &mut KSplit,
    ino: u32,
    size: u64,
    power: &mut Power,
) -> Result<(), Stop>
    requires quiet { IsQuiet k.old }
    requires file { IsLiveFile ino k.old.volume }
    requires own { size ≡ (inode k.old.volume ino).size }
    ensures spent { IsSpent power.old power.new }
    ensures paid { IsSweepPaid power.new result }
    ensures done { OnDone result (IsSizeAnswer ino size k.old k.new (Ok tt)) }
    ensures images { Follows (ShowsTheSame k.old.volume.geometry) k.old.cells k.new.cells }
    ensures device { IsSameDevice k.old.cells k.new.cells }
{
    match k.set_size(alloc, ino, size, power) {
        Ok(()) => Ok(()),
        Err(KFault::PowerLost) => Err(Stop::PowerLost),
        Err(KFault::NoMemory) => Err(Stop::NoMemory),
        Err(_) => unreachable!(),
    }
}

// The map of an inode loses what it has past the end of a file.
fn trim_one(alloc: Global, k: &mut KSplit, ino: u32, power: &mut Power) -> Result<(), Stop>
    requires on { is_on power.old ≡ true }
    requires quiet { IsQuiet k.old }
    ensures spent { IsSpent power.old power.new }
    ensures paid { IsSweepPaid power.new result }
    ensures done { OnDone result (IsTrimmedOne ino k.old k.new) }
    ensures images { Follows (ShowsTheSame k.old.volume.geometry) k.old.cells k.new.cells }
    ensures device { IsSameDevice k.old.cells k.new.cells }
{
    match length_passed(k, ino) {
        None => Ok(()),
        Some(size) => cut_file(alloc, k, ino, size, power),
    }
}

/// The maps of all files lose what they have past the ends, each by a change of its own; of a file that ends in time
/// nothing is written. No entry of the log is live.
///
/// # Errors
///
/// `PowerLost` exactly where the power is off at the return; else `NoMemory` alone.
pub(crate) fn trim(alloc: Global, k: &mut KSplit, power: &mut Power) -> Result<(), Stop>
    requires { IsQuiet k.old }
    ensures spent { IsSpent power.old power.new }
    ensures paid { IsSweepPaid power.new result }
    ensures done { OnDone result (AreTrimmed k.old k.new) }
    ensures images { Follows (ShowsTheSame k.old.volume.geometry) k.old.cells k.new.cells }
    ensures device { IsSameDevice k.old.cells k.new.cells }
{
    if !power.on() {
        return Err(Stop::PowerLost);
    }
    let end = k.geometry().inodes;
    for ino in FIRST_FILE..end {
        trim_one(alloc, k, ino, power)?;
    }
    Ok(())
}
