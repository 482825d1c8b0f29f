//! Landing a plan without new maps: one commit.
ghost use Rattle.std.specs.Prelude.{◌≡◌, ◌+◌, ◌*◌, ◌<◌, ℕ, [], length, true, false};
ghost use Rattle.volume_change_laws.specs.k_split_model.image_model.Volume.{Volume};
ghost use Rattle.k_journal.specs.Commits.{MayCommit, TakesAStep};
ghost use Rattle.k_plans.specs.Landings.{IsElsewhere, SameElsewhere};
ghost use Rattle.k_plans.specs.LandingsPlans.{Turns};
ghost use Rattle.volume_change_laws.specs.k_split_model.Stands.{Stands, IsOldOrNew};
ghost use Rattle.k_inodes.specs.pm_model.Cells.{cell, Settles};
ghost use Rattle.k_inodes.specs.pm_model.Frames.{SameLent, KeepsSingle};
ghost use Rattle.k_inodes.specs.pm_model.Images.{Follows};
ghost use Rattle.k_inodes.specs.pm_model.Powers.{is_on, Steps};

use k_journal::{Batch, Commit, Geometry, journal};
use pm_lines::{Pm, Power};

/// Lands a plan that needs no new map, by one commit. It takes no memory. Without power at the call
/// it does nothing.
///
/// `Done` empties the batch; `PowerLost` keeps it. It takes at most 32 steps a line and 16; a step
/// is a store, a flush or a fence.
pub fn land(batch: &mut Batch, pm: &mut Pm, geometry: &Geometry, power: &mut Power) -> Commit
    requires ready { is_on power.old ≡ true → MayCommit geometry.now batch.old pm.old }
    ensures size { length pm.new ≡ length pm.old }
    ensures lent { SameLent pm.old pm.new }
    ensures steps { Steps (32 * length batch.old + 16) power.old power.new }
    ensures took { result ≡ Commit.Done → 0 < length batch.old
        → TakesAStep power.old power.new }
    ensures on { result ≡ Commit.Done → is_on power.new ≡ true }
    ensures lost { result ≡ Commit.PowerLost → is_on power.new ≡ false }
    ensures off { is_on power.old ≡ false → (pm.new ≡ pm.old) × (power.new ≡ power.old) }

    // Wherever the power goes, each image reads as the old volume or as the new one, and is one of
    // those before, but for words of the journal and of the plan's lines.
    ensures each_image { (v w : Volume) → Stands geometry.now v pm.old
        → Turns geometry.now [] v w batch.old
        → Follows (IsOldOrNew geometry.now [] v w) pm.old pm.new }
    ensures elsewhere { Follows (SameElsewhere batch.old []) pm.old pm.new }
    ensures others { (i : ℕ) → IsElsewhere batch.old [] i
        → Settles (cell pm.old i) (cell pm.new i) }

    // Done: the device stands at the new volume.
    ensures done { result ≡ Commit.Done → (v w : Volume) → Stands geometry.now v pm.old
        → Turns geometry.now [] v w batch.old → Stands geometry.now w pm.new }
    ensures keeps { result ≡ Commit.Done → KeepsSingle pm.old pm.new }
    ensures empty { result ≡ Commit.Done → batch.new ≡ [] }
    ensures kept { result ≡ Commit.PowerLost → batch.new ≡ batch.old }
{
    journal::commit(batch, pm, geometry, power)
}
