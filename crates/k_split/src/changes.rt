//! The landing of a plan on the tables, and a commit of all that gathers.
ghost use Rattle.std.specs.Prelude.{◌≡◌, ◌≢◌, ◌+◌, ◌*◌, [], length, true, false, Err, OnOk, OnErr};
ghost use Rattle.block_io.specs.image_model.Volume.{Volume};
ghost use Rattle.block_io.specs.pm_model.Powers.{is_on, Steps};
ghost use Rattle.k_split.specs.Answers.{IsCommitAnswer, IsCommitPaid};
ghost use Rattle.k_map_plans.specs.k_plans.View.{TablesView};
ghost use Rattle.k_split.specs.Gathers.{IsCommitOutcome};
ghost use Rattle.k_split.specs.Landed.{IsLanded, IsLandedJoin, IsPlanned, IsPlanOn};
ghost use Rattle.k_split.specs.Order.{IsReady, IsSteady};

use crate::faults::KFault;
use crate::state::KSplit;
use k_group_commit::{commit_group, gather};
use k_map_plans::{Batch, Commit, Tables, land};
use pm_lines::{Pm, Power};

// Lands what is planned on the tables, and notes in `lost` that the power went.
pub(crate) fn land_plan(
    batch: &mut Batch,
    pm: &mut Pm,
    tables: &Tables,
    lost: &mut bool,
    power: &mut Power,
) -> Result<(), KFault>
    requires { (v : Volume) × IsPlanned v tables.now.volume batch.old pm.old }
    ensures steps { Steps (32 * length batch.old + 16) power.old power.new }
    ensures few { Steps 256 power.old power.new }
    ensures landed { (v : Volume) → IsPlanned v tables.now.volume batch.old pm.old
        → IsLanded v tables.now.volume batch.old pm.old pm.new power.old power.new result }
    ensures no_lines { OnOk result (batch.new ≡ []) }
    ensures same { OnOk result (lost.new ≡ lost.old) }
    ensures noted { OnErr result (lost.new ≡ true) }
    ensures memory { result ≢ Err KFault.NoMemory }
{
    match land(batch, pm, tables.geometry(), power) {
        Commit::Done => Ok(()),
        Commit::PowerLost => {
            *lost = true;
            Err(KFault::PowerLost)
        }
    }
}

// A planned change without new maps: where changes do not gather, what it freed is free and it is
// landed; where they do, it joins those that gathered. It notes in `lost` that the power went.
pub(crate) fn land_change(
    batched: bool,
    group: &mut Batch,
    batch: &mut Batch,
    pm: &mut Pm,
    tables: &mut Tables,
    lost: &mut bool,
    power: &mut Power,
) -> Result<(), KFault>
    requires on { is_on power.old ≡ true }
    requires plan { (t : TablesView) × IsPlanOn t tables.old group.old batch.old pm.old batched }
    ensures steps { Steps 4112 power.old power.new }
    ensures few { batched ≡ false → Steps 256 power.old power.new }
    ensures landed { (t : TablesView) → IsPlanOn t tables.old group.old batch.old pm.old batched
        → batched ≡ false → IsLanded t.volume tables.old.volume batch.old pm.old pm.new
        power.old power.new result }
    ensures joined { (t : TablesView)
        → (plan : IsPlanOn t tables.old group.old batch.old pm.old batched) → batched ≡ true
        → IsLandedJoin plan.ready.committed t tables.old tables.new [] group.old batch.old group.new
        pm.old pm.new power.new result }
    ensures ready { (t : TablesView) → IsPlanOn t tables.old group.old batch.old pm.old batched
        → OnOk result (IsReady tables.new group.new batch.new pm.new batched) }
    ensures steady { batched ≡ true → IsSteady tables.new.volume.geometry pm.new }
    ensures volume { tables.new.volume ≡ tables.old.volume }
    ensures none_aside { tables.new.aside ≡ [] }
    ensures group { batched ≡ false → group.new ≡ group.old }
    ensures waiting { batched ≡ false → tables.new.waiting ≡ tables.old.waiting }
    ensures same { OnOk result (lost.new ≡ lost.old) }
    ensures noted { OnErr result (lost.new ≡ true) }
    ensures memory { result ≢ Err KFault.NoMemory }
{
    if batched {
        match gather(&[], tables, group, batch, pm, power) {
            Commit::Done => Ok(()),
            Commit::PowerLost => {
                *lost = true;
                Err(KFault::PowerLost)
            }
        }
    } else {
        tables.release();
        land_plan(batch, pm, tables, lost, power)
    }
}

impl KSplit {
    /// Commits all changes that gather, as one transaction: then the device stands at the present
    /// volume, no block waits and no line is set. Where none gather there is no line to commit. It
    /// takes no memory, and at most 32 steps a line and 16.
    ///
    /// # Errors
    ///
    /// `PowerLost` exactly where the power is off at the return, as [`KFault`] says; no other fault
    /// comes.
    pub fn commit(&mut self, power: &mut Power) -> Commit
        requires awake { self.old.lost ≡ true → is_on power.old ≡ false }
        ensures steps { Steps (32 * length self.old.lines + 16) power.old power.new }
        ensures most { Steps 4112 power.old power.new }
        ensures paid { IsCommitPaid power.new result }
        ensures answer { IsCommitAnswer self.old self.new result }
        ensures outcome { IsCommitOutcome self.old self.new result }
    {
        if !power.on() {
            self.lost = true;
            return Commit::PowerLost;
        }
        match commit_group(&mut self.group, &mut self.pm, self.tables.geometry(), power) {
            Commit::Done => {
                self.tables.settle();
                Commit::Done
            }
            Commit::PowerLost => {
                self.lost = true;
                Commit::PowerLost
            }
        }
    }
}
