//! New maps: their writes into free blocks, and landing a plan that switches to them.
ghost use Rattle.std.specs.Prelude.{◌≡◌, ◌+◌, ◌*◌, ◌<◌, ℕ, [], length, All, true, false};
ghost use Rattle.k_inodes.specs.layout_model.Places.{is_data_block};
ghost use Rattle.volume_change_laws.specs.k_split_model.image_model.Volume.{Volume};
ghost use Rattle.k_journal.specs.Commits.{MayCommit, TakesAStep};
ghost use Rattle.k_plans.specs.Landings.{IsElsewhere, SameElsewhere};
ghost use Rattle.k_plans.specs.Maps.{MayWriteAll, Writes, WritesFirst, write_steps};
ghost use Rattle.k_plans.specs.LandingsPlans.{Turns, blocks_of};
ghost use Rattle.volume_change_laws.specs.k_split_model.Stands.{Stands, IsOldOrNew};
ghost use Rattle.map_chain.specs.Writes.{MayWrite};
ghost use Rattle.k_inodes.specs.pm_model.Cells.{cell, Settles};
ghost use Rattle.k_inodes.specs.pm_model.Frames.{SameLent, KeepsSingle};
ghost use Rattle.k_inodes.specs.pm_model.Images.{Follows};
ghost use Rattle.k_inodes.specs.pm_model.Powers.{is_on, Steps};
ghost use Rattle.map_chain.specs.volume_laws.Uses.{is_unused};

use extent_map::ExtentMap;
use k_journal::{Batch, Commit, Geometry, journal};
use map_chain::write;
use pm_lines::{Pm, Power};
use std::marker::Model;

/// A map that a plan puts into free blocks before its lines are set.
#[derive(Debug, Drop)]
pub struct NewMap {
    /// The blocks of its chain, counted from the start of the device: as many as the map takes.
    pub blocks: Vec<u32>,
    /// The map.
    pub map: ExtentMap,
}

impl Model for NewMap {
    ghost use Rattle.k_plans.specs.LandingsPlans.{NewChain};

    ghost Value = { NewChain };

    ghost view = { λ m. record { blocks = m.blocks.items; extents = m.map } };
}

// Writes one map.
fn write_one(one: &NewMap, pm: &mut Pm, power: &mut Power)
    requires ready { is_on power.old ≡ true → MayWrite one.now.extents one.now.blocks pm.old }
    ensures { Writes one.now pm.old pm.new power.old power.new }
{
    write(pm, power, &one.map, &one.blocks);
}

// Writes the maps one after the other. Without power at the call it does nothing.
fn write_all(maps: &[NewMap], pm: &mut Pm, power: &mut Power)
    requires ready { is_on power.old ≡ true → MayWriteAll maps.now pm.old }
    ensures { WritesFirst maps.now (length maps.now) pm.old pm.new power.old power.new }
{
    for one in maps {
        write_one(one, pm, power);
    }
}

/// Writes new maps into free blocks, one after the other, and then lands a plan that switches to
/// them, by one commit. It takes no memory. Without power at the call it does nothing.
///
/// The blocks are data blocks, and no two of the maps have one in common. What is said of the
/// volumes asks that no inode of the old one has one of the blocks, in its chain or in its map: so
/// no byte of a file is written.
///
/// `Done` empties the batch; `PowerLost` keeps it. It takes at most 577 steps a block of a chain
/// and 1 a map, and then 32 a line and 16; a step is a store, a flush or a fence.
pub fn land_maps(
    maps: &[NewMap],
    batch: &mut Batch,
    pm: &mut Pm,
    geometry: &Geometry,
    power: &mut Power,
) -> Commit
    requires write { is_on power.old ≡ true → MayWriteAll maps.now pm.old }
    requires in_data { All (λ b. is_data_block geometry.now b ≡ true) (blocks_of maps.now) }
    requires ready { is_on power.old ≡ true → MayCommit geometry.now batch.old pm.old }
    ensures size { length pm.new ≡ length pm.old }
    ensures lent { SameLent pm.old pm.new }
    ensures steps { Steps (write_steps maps.now + (32 * length batch.old + 16))
        power.old power.new }
    ensures took { result ≡ Commit.Done → 0 < length batch.old
        → TakesAStep power.old power.new }
    ensures on { result ≡ Commit.Done → is_on power.new ≡ true }
    ensures lost { result ≡ Commit.PowerLost → is_on power.new ≡ false }
    ensures off { is_on power.old ≡ false → (pm.new ≡ pm.old) × (power.new ≡ power.old) }

    // Wherever the power goes, each image reads as the old volume or as the new one, and is one of
    // those before, but for words of the journal, of the plan's lines and of the new blocks.
    ensures each_image { (v w : Volume) → Stands geometry.now v pm.old
        → All (λ b. is_unused v b ≡ true) (blocks_of maps.now)
        → Turns geometry.now maps.now v w batch.old
        → Follows (IsOldOrNew geometry.now (blocks_of maps.now) v w) pm.old pm.new }
    ensures elsewhere { Follows (SameElsewhere batch.old (blocks_of maps.now)) pm.old pm.new }
    ensures others { (i : ℕ) → IsElsewhere batch.old (blocks_of maps.now) i
        → Settles (cell pm.old i) (cell pm.new i) }

    // Done: the device stands at the new volume.
    ensures done { result ≡ Commit.Done → (v w : Volume) → Stands geometry.now v pm.old
        → All (λ b. is_unused v b ≡ true) (blocks_of maps.now)
        → Turns geometry.now maps.now v w batch.old → Stands geometry.now w pm.new }
    ensures keeps { result ≡ Commit.Done → KeepsSingle pm.old pm.new }
    ensures empty { result ≡ Commit.Done → batch.new ≡ [] }
    ensures kept { result ≡ Commit.PowerLost → batch.new ≡ batch.old }
{
    write_all(maps, pm, power);
    journal::commit(batch, pm, geometry, power)
}
