//! A device is mounted, whatever entries of its log are live.
ghost use Rattle.std.specs.Prelude.{◌≡◌, ◌*◌, ◌%◌, ◌<◌, ◌≤◌, ◌^◌, false, length, IfOk};
ghost use Rattle.k_check.specs.pm_model.Cells.{cell, AllSingle};
ghost use Rattle.k_check.specs.pm_model.declared.Cell.{Cell};
ghost use Rattle.k_check.specs.pm_model.Images.{Follows, words_of};
ghost use Rattle.k_check.specs.layout_model.Journal.{journaled};
ghost use Rattle.k_check.specs.layout_model.Places.{commit_word};
ghost use Rattle.k_check.specs.image_model.Live.{live_entries};
ghost use Rattle.k_check.specs.image_model.Rules.{geometry_of, IsChecked};
ghost use Rattle.k_check.specs.image_model.Volume.{volume};
ghost use Rattle.log_replay.specs.Laws.{IsRecovered};
ghost use Rattle.log_replay.specs.Sheds.{IsSameDevice, MaySettle, OnCommit, OnLost, StaysShown};
ghost use Rattle.staging_files.specs.k_split.Answers.{IsCommitPaid};
ghost use Rattle.log_replay.specs.Mounts.{IsLeft, IsMountAnswer, IsMounted, IsOpenAnswer};
ghost use Rattle.log_replay.specs.Quiet.{IsQuiet, IsSpent, IsSweepPaid, OnDone};
ghost use Rattle.log_replay.specs.Resets.{IsClosed};
ghost use Rattle.log_replay.specs.Sweeps.{AreSwept};
ghost use Rattle.log_replay.specs.Replays.{MayReplay, ShowsTheSame};
ghost use Rattle.fsync_relink.specs.log_laws.Orders.{AreInOrder};

use crate::mounting::faults::MountFault;
use crate::mounting::resetting::reset;
use crate::mounting::trimming::trim;
use crate::mounting::unstaging::unstage;
use crate::replays::{in_order, replay, settle};
use crate::stops::{Stop, left};
use k_check::{CheckFault, Commit, Geometry, Recovered, check, live_log, recover};
use layout_model::Draft;
use pm_lines::{Pm, Power};
use staging_files::KSplit;
use std::alloc::{AllocError, Global};

// Nothing is staged any more, and no map goes past the end of its file.
fn sweep(alloc: Global, k: &mut KSplit, power: &mut Power) -> Result<(), Stop>
    requires { IsQuiet k.old }
    ensures spent { IsSpent power.old power.new }
    ensures paid { IsSweepPaid power.new result }
    ensures done { OnDone result (AreSwept k.old k.new) }
    ensures images { Follows (ShowsTheSame k.old.volume.geometry) k.old.cells k.new.cells }
    ensures device { IsSameDevice k.old.cells k.new.cells }
{
    unstage(alloc, k, power)?;
    trim(alloc, k, power)
}

// A device is settled, and then no file has applied a high order.
fn close(alloc: Global, k: &mut KSplit, power: &mut Power) -> Result<(), Stop>
    requires { MaySettle k.old }
    ensures spent { IsSpent power.old power.new }
    ensures paid { IsSweepPaid power.new result }
    ensures done { OnDone result (IsClosed k.old k.new) }
    ensures images { StaysShown k.old.volume.geometry (words_of k.old.cells) k.new.cells }
    ensures device { IsSameDevice k.old.cells k.new.cells }
{
    left(Ok(settle(k, power)))?;
    reset(alloc, k, power)
}

// A device of whose log no entry is live is put in order.
fn finish(alloc: Global, k: &mut KSplit, power: &mut Power) -> Result<(), Stop>
    requires { IsQuiet k.old }
    ensures spent { IsSpent power.old power.new }
    ensures paid { IsSweepPaid power.new result }
    ensures done { OnDone result
        (IsMounted k.old.volume.geometry (words_of k.old.cells) k.new) }
    ensures images { StaysShown k.old.volume.geometry (words_of k.old.cells) k.new.cells }
    ensures device { IsSameDevice k.old.cells k.new.cells }
{
    sweep(alloc, k, power)?;
    close(alloc, k, power)
}

// The live entries are carried out, and the device is put in order.
fn recover_log(
    alloc: Global,
    k: &mut KSplit,
    entries: &[Draft],
    power: &mut Power,
) -> Result<(), Stop>
    requires { MayReplay k.old entries.now }
    ensures spent { IsSpent power.old power.new }
    ensures paid { IsSweepPaid power.new result }
    ensures done { OnDone result
        (IsMounted k.old.volume.geometry (words_of k.old.cells) k.new) }
    ensures images { StaysShown k.old.volume.geometry (words_of k.old.cells) k.new.cells }
    ensures device { IsSameDevice k.old.cells k.new.cells }
{
    left(replay(alloc, k, entries, power))?;
    finish(alloc, k, power)
}

// The live entries of the log of a checked device, in the order in which they are carried out.
fn live_of(alloc: Global, pm: &Pm, geometry: &Geometry) -> Result<Vec<Draft>, AllocError>
    requires single { AllSingle pm.now }
    requires size { length pm.now ≡ 512 * geometry.now.blocks }
    requires numbers { geometry_of (words_of pm.now) ≡ geometry.now }
    requires checked { IsChecked (4096 * geometry.now.blocks) (words_of pm.now) }
    ensures { IfOk result (λ ds. let j = journaled (words_of pm.now) in
        AreInOrder (live_entries (volume geometry.now j) j) ds.items) }
{
    in_order(live_log(alloc, pm)?)
}

// The journal of a checked device is recovered.
fn recover_journal(pm: &mut Pm, geometry: &Geometry, power: &mut Power) -> Commit
    requires single { AllSingle pm.old }
    requires size { length pm.old ≡ 512 * geometry.now.blocks }
    requires numbers { geometry_of (words_of pm.old) ≡ geometry.now }
    requires checked { IsChecked (4096 * geometry.now.blocks) (words_of pm.old) }
    ensures spent { IsSpent power.old power.new }
    ensures paid { IsCommitPaid power.new result }
    ensures size { length pm.new ≡ length pm.old }
    ensures single { OnCommit result (AllSingle pm.new) }
    ensures words { OnCommit result (IsRecovered (words_of pm.old) pm.new) }
    ensures lost { OnLost result (IsLeft geometry.now (words_of pm.old) pm.new) }
{
    match recover(pm, geometry, power) {
        Recovered::Done => Commit::Done,
        Recovered::PowerLost => Commit::PowerLost,
        Recovered::Bad { .. } => unreachable!(),
    }
}

// A checked device is mounted whose journal is empty. These are the live entries of its log.
fn mount_recovered(
    alloc: Global,
    pm: Pm,
    geometry: Geometry,
    entries: &[Draft],
    batched: bool,
    power: &mut Power,
) -> Result<KSplit, MountFault>
    requires single { AllSingle pm }
    requires size { length pm ≡ 512 * geometry.blocks }
    requires idle { cell pm commit_word ≡ Cell.Single 0 }
    requires numbers { geometry_of (words_of pm) ≡ geometry }
    requires checked { IsChecked (4096 * geometry.blocks) (words_of pm) }
    requires entries { let j = journaled (words_of pm) in
        AreInOrder (live_entries (volume geometry j) j) entries.now }
    requires unbatched { batched ≡ false }
    ensures spent { IsSpent power.old power.new }
    ensures answer { IsOpenAnswer geometry (words_of pm) power.new result }
{
    let mut k = KSplit::open(alloc, pm, geometry, batched)?;
    match recover_log(alloc, &mut k, entries, power) {
        Ok(()) => Ok(k),
        Err(Stop::PowerLost) => Err(MountFault::PowerLost(k.into_pm())),
        Err(Stop::NoMemory) => Err(MountFault::NoMemory),
    }
}

// A checked device is mounted.
fn mount_checked(
    alloc: Global,
    mut pm: Pm,
    geometry: Geometry,
    batched: bool,
    power: &mut Power,
) -> Result<KSplit, MountFault>
    requires single { AllSingle pm }
    requires size { length pm ≡ 512 * geometry.blocks }
    requires numbers { geometry_of (words_of pm) ≡ geometry }
    requires checked { IsChecked (4096 * geometry.blocks) (words_of pm) }
    requires unbatched { batched ≡ false }
    ensures spent { IsSpent power.old power.new }
    ensures answer { IsOpenAnswer geometry (words_of pm) power.new result }
{
    let entries = live_of(alloc, &pm, &geometry)?;
    match recover_journal(&mut pm, &geometry, power) {
        Commit::PowerLost => return Err(MountFault::PowerLost(pm)),
        Commit::Done => {}
    }
    mount_recovered(alloc, pm, geometry, &entries, batched, power)
}

/// Mounts a device: its image is checked, its journal recovered, and the live entries of its log are carried
/// out by rising order; staging files give up their blocks, maps what they have past the ends of files, files
/// go to which no name leads, and the log's next lap begins; then files that have applied an order above 2^62
/// have applied none. The content is that of the image.
///
/// Nothing of the device is lent, and each word has one candidate. `batched` must be false, as for
/// [`KSplit::open`].
///
/// # Errors
///
/// `Bad` exactly where the image breaks a rule, with the first rule and the lowest place: nothing was done.
/// Else `PowerLost` exactly where the power is off at the return, with the device: nothing of it is lent, and
/// each honest image of it is checked and has the content of the first. Out of memory is the only other one.
pub fn mount(alloc: Global, pm: Pm, batched: bool, power: &mut Power) -> Result<KSplit, MountFault>
    requires single { AllSingle pm }
    requires whole { length pm % 512 ≡ 0 }
    requires fits { 8 * length pm < 2 ^ 64 }
    requires unbatched { batched ≡ false }
    ensures spent { IsSpent power.old power.new }
    ensures answer { IsMountAnswer pm power.old power.new result }
{
    match check(alloc, &pm) {
        Ok(geometry) => mount_checked(alloc, pm, geometry, batched, power),
        Err(CheckFault::Bad(bad)) => Err(MountFault::Bad(bad)),
        Err(CheckFault::NoMemory) => Err(MountFault::NoMemory),
    }
}
