//! Runs are given back, and staging files give up their blocks.
ghost use Rattle.std.specs.Prelude.{◌≡◌, ◌≢◌, ◌^◌, ℕ, true, false, slice_get, Contains, Some, IfNone, IfSome};
ghost use Rattle.k_split.specs.pm_model.Powers.{is_on, Steps};
ghost use Rattle.k_split.specs.k_split_model.View.{View};
ghost use Rattle.staging_files.specs.GivesUp.{AgreesAfterAll, AllStagedSingle, IsGiveUpAllAnswer, IsGiveUpAllPaid, IsGivenBack, IsGivenUpEach, nothing_staged, stopped_by};
ghost use Rattle.staging_files.specs.Keeps.{Agrees, AreFreeSingle, IsRunSingle, IsThere};

use crate::runs::StageRun;
use crate::staging::Staging;
use k_split::{Commit, KFault, KSplit};
use pm_lines::Power;
use std::alloc::{AllocError, Global};

// What is answered where K-Split did not take the blocks from a staging file.
fn stopped_by(fault: KFault) -> Result<Commit, AllocError>
    ensures { result ≡ stopped_by fault }
{
    match fault {
        KFault::PowerLost => Ok(Commit::PowerLost),
        KFault::Refused(_) | KFault::Room(_) | KFault::NoMemory => Err(AllocError),
    }
}

// The place of a run among those that are out.
fn place_of(out: &[StageRun], run: &StageRun) -> Option<usize>
    ensures found { IfSome result (λ place. slice_get out.now place ≡ Some run.now) }
    ensures none { IfNone result ((k : ℕ) → slice_get out.now k ≢ Some run.now) }
{
    for (place, other) in out.iter().enumerate() {
        if other.is_same(run) {
            return Some(place);
        }
    }
    None
}

// All staging files give up their blocks, one after the other.
fn give_up_each(alloc: Global, k: &mut KSplit, power: &mut Power) -> Result<Commit, AllocError>
    requires awake { k.old.lost ≡ true → is_on power.old ≡ false }
    requires unbatched { k.old.lost ≡ false → k.old.batched ≡ false }
    requires single { k.old.lost ≡ false → AllStagedSingle k.old }
    ensures steps { Steps (2 ^ 17) power.old power.new }
    ensures paid { IsGiveUpAllPaid power.new result }
    ensures answer { IsGivenUpEach k.old k.new result }
    ensures agrees { AgreesAfterAll nothing_staged k.new result }
{
    if k.is_lost() {
        return Ok(Commit::PowerLost);
    }
    for staging in 1..5 {
        match k.give_up(alloc, staging, power) {
            Ok(()) => {}
            Err(fault) => return stopped_by(fault),
        }
    }
    Ok(Commit::Done)
}

impl Staging {
    /// Takes a run back that is out: its blocks are kept as free again. It takes no memory. The
    /// agreement with K-Split stays where the run's blocks are in its staging file and not lent.
    pub fn give_back(&mut self, run: StageRun)
        requires { Contains self.old.out run }
        ensures back { IsGivenBack run self.old self.new }
        ensures agrees { (k : View) → Agrees self.old k → IsThere k run → Agrees self.new k }
        ensures single { (k : View) → AreFreeSingle self.old k → IsRunSingle k run
            → AreFreeSingle self.new k }
    {
        if let Some(place) = place_of(&self.out, &run) {
            self.out.remove(place);
        }
    }

    /// All staging files give up their blocks, each as one transaction: no run is out then, and all
    /// four are empty and kept as such. Each word of their blocks has one candidate, so that none is
    /// lent; K-Split's changes do not gather in a batch. `PowerLost` comes exactly where the power is
    /// off at the return.
    ///
    /// # Errors
    ///
    /// Out of memory. Some staging files may have given up their blocks then, and what the staging
    /// keeps is only to be dropped.
    ///
    /// # Steps
    ///
    /// At most 2^17.
    pub fn give_up_all(
        &mut self,
        alloc: Global,
        k: &mut KSplit,
        power: &mut Power,
    ) -> Result<Commit, AllocError>
        requires awake { k.old.lost ≡ true → is_on power.old ≡ false }
        requires unbatched { k.old.lost ≡ false → k.old.batched ≡ false }
        requires single { k.old.lost ≡ false → AllStagedSingle k.old }
        ensures steps { Steps (2 ^ 17) power.old power.new }
        ensures paid { IsGiveUpAllPaid power.new result }
        ensures answer { IsGiveUpAllAnswer self.old k.old self.new k.new result }
        ensures agrees { AgreesAfterAll self.new k.new result }
    {
        let commit = match give_up_each(alloc, k, power) {
            Ok(commit) => commit,
            Err(error) => return Err(error),
        };
        match commit {
            Commit::PowerLost => Ok(Commit::PowerLost),
            Commit::Done => {
                self.out.clear();
                self.given = [0; 4];
                Ok(Commit::Done)
            }
        }
    }
}
