//! Files without a name go.
ghost use Rattle.std.specs.Prelude.{◌≡◌, ◌↔◌, ◌*◌, true, IsTrue};
ghost use Rattle.world_image_laws.specs.pm_model.Images.{Follows};
ghost use Rattle.world_image_laws.specs.pm_model.Powers.{is_on, Steps};
ghost use Rattle.k_split.specs.Answers.{IsCommitPaid};
ghost use Rattle.log_replay.specs.Sheds.{IsAtRest, IsNameless, IsSameDevice, IsShedCut, IsShedOne, LosesNameless, MaySettle, OnCommit, OnLost, StillShows};

use crate::FIRST_FILE;
use k_split::{Commit, KFault, KSplit, Kind};
use pm_lines::Power;

// Whether an inode is a file to which no name leads.
fn is_nameless(k: &KSplit, ino: u32) -> bool
    ensures { IsTrue result ↔ IsNameless k.now.volume ino }
{
    match k.node(ino) {
        Some(node) => node.kind == Kind::File && !k.named(ino),
        None => false,
    }
}

// Lets an inode go where it is a file without a name.
fn drop_if_nameless(k: &mut KSplit, ino: u32, power: &mut Power) -> Commit
    requires on { is_on power.old ≡ true }
    requires rest { IsAtRest k.old }
    ensures steps { Steps 256 power.old power.new }
    ensures paid { IsCommitPaid power.new result }
    ensures done { OnCommit result (IsShedOne ino k.old k.new) }
    ensures lost { OnLost result (IsShedCut ino k.old k.new) }
    ensures device { IsSameDevice k.old.cells k.new.cells }
{
    if !is_nameless(k, ino) {
        return Commit::Done;
    }
    match k.drop_node(ino, power) {
        Ok(()) => Commit::Done,
        Err(KFault::PowerLost) => Commit::PowerLost,
        Err(_) => unreachable!(),
    }
}

/// Lets all files go to which no name leads, each by a change of its own. Their blocks are free then. It takes no
/// memory, and at most 256 steps an inode. `PowerLost` comes exactly where the power is off at the return. Done
/// or not, each image has the content of the image before.
pub fn drop_nameless(k: &mut KSplit, power: &mut Power) -> Commit
    requires { MaySettle k.old }
    ensures steps { Steps (256 * k.old.volume.geometry.inodes) power.old power.new }
    ensures paid { IsCommitPaid power.new result }
    ensures done { OnCommit result (LosesNameless k.old k.new) }
    ensures images { Follows (StillShows k.old.volume.geometry) k.old.cells k.new.cells }
    ensures device { IsSameDevice k.old.cells k.new.cells }
{
    if !power.on() {
        return Commit::PowerLost;
    }
    let end = k.geometry().inodes;
    for ino in FIRST_FILE..end {
        match drop_if_nameless(k, ino, power) {
            Commit::Done => {}
            Commit::PowerLost => return Commit::PowerLost,
        }
    }
    Commit::Done
}
