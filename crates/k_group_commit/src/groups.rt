//! A plan joins the lines that gathered, and all of them are committed.
ghost use Rattle.std.specs.Prelude.{◌≡◌, ◌+◌, ◌*◌, ◌<◌, ◌≤◌, ◌++◌, ℕ, All, List, [], length, true, false};
ghost use Rattle.pm_lines.specs.pm_model.Cells.{cell, Settles};
ghost use Rattle.pm_lines.specs.pm_model.Frames.{SameLent, KeepsSingle};
ghost use Rattle.pm_lines.specs.pm_model.Images.{Follows};
ghost use Rattle.pm_lines.specs.pm_model.Powers.{is_on, Steps};
ghost use Rattle.k_plans.specs.image_model.Placed.{IsOutside};
ghost use Rattle.k_plans.specs.image_model.Volume.{Volume};
ghost use Rattle.k_plans.specs.layout_model.Places.{Geometry};
ghost use Rattle.k_plans.specs.k_journal.Batch.{AreLaid, new_lines};
ghost use Rattle.k_plans.specs.k_journal.Commits.{TakesAStep};
ghost use Rattle.k_plans.specs.Landings.{IsElsewhere};
ghost use Rattle.k_plans.specs.LandingsPlans.{NewChain, Turns, blocks_of};
ghost use Rattle.k_plans.specs.Maps.{AreApart, MayWriteAll, Writes, WritesFirst, write_steps};
ghost use Rattle.k_plans.specs.k_split_model.Stands.{IsOldOrNew};
ghost use Rattle.k_plans.specs.volume_laws.Uses.{is_unused};
ghost use Rattle.map_chain.specs.Writes.{MayWrite, SameOutside};
ghost use Rattle.k_group_commit.specs.Gathered.{AreGathered, HaveGathered};
ghost use Rattle.k_group_commit.specs.Joins.{IsAhead, IsJoined, IsRoomMade, IsToJoin};
ghost use Rattle.k_plans.specs.View.{TablesView};

use k_journal::journal;
use k_plans::{Batch, Commit, Geometry, NewMap, Tables};
use map_chain::write;
use pm_lines::{Pm, Power};

/// Commits the lines that gathered, as one transaction. It takes no memory. Without power at the call it
/// does nothing.
///
/// `Done` empties the group; `PowerLost` keeps it. It takes at most 32 steps a line and 16; a step is a
/// store, a flush or a fence.
pub fn commit_group(
    group: &mut Batch,
    pm: &mut Pm,
    geometry: &Geometry,
    power: &mut Power,
) -> Commit
    requires ready { is_on power.old ≡ true
        → (u v : Volume) × HaveGathered geometry.now u v group.old pm.old }
    ensures size { length pm.new ≡ length pm.old }
    ensures lent { SameLent pm.old pm.new }
    ensures steps { Steps (32 * length group.old + 16) power.old power.new }
    ensures took { result ≡ Commit.Done → 0 < length group.old → TakesAStep power.old power.new }
    ensures on { result ≡ Commit.Done → is_on power.new ≡ true }
    ensures lost { result ≡ Commit.PowerLost → is_on power.new ≡ false }
    ensures off { is_on power.old ≡ false → (pm.new ≡ pm.old) × (power.new ≡ power.old) }

    // Wherever the power goes, each image reads as the volume of the device or as the one into which
    // the lines turn it, and is one of those before, but for words of the journal and of these lines.
    ensures each_image { (u v : Volume) → HaveGathered geometry.now u v group.old pm.old
        → Follows (IsOldOrNew geometry.now [] u v) pm.old pm.new }
    ensures others { (i : ℕ) → IsElsewhere group.old [] i → Settles (cell pm.old i) (cell pm.new i) }

    // Done: the device stands at the new volume, and nothing has gathered.
    ensures done { result ≡ Commit.Done → (u v : Volume)
        → HaveGathered geometry.now u v group.old pm.old
        → AreGathered geometry.now [] v v group.new pm.new }
    ensures keeps { result ≡ Commit.Done → KeepsSingle pm.old pm.new }
    ensures empty { result ≡ Commit.Done → group.new ≡ [] }
    ensures kept { result ≡ Commit.PowerLost → group.new ≡ group.old }
{
    journal::commit(group, pm, geometry, power)
}

// Writes one map.
fn write_one(one: &NewMap, pm: &mut Pm, power: &mut Power)
    requires ready { is_on power.old ≡ true → MayWrite one.now.extents one.now.blocks pm.old }
    ensures { Writes one.now pm.old pm.new power.old power.new }
{
    write(pm, power, &one.map, &one.blocks);
}

// Writes the maps one after the other. Without power at the call it does nothing.
fn write_all(maps: &[NewMap], pm: &mut Pm, power: &mut Power)
    requires ready { is_on power.old ≡ true → MayWriteAll maps.now pm.old }
    ensures { WritesFirst maps.now (length maps.now) pm.old pm.new power.old power.new }
{
    for one in maps {
        write_one(one, pm, power);
    }
}

// A change joins the lines that gathered: its new maps are written into their blocks, and then its
// lines are laid over those of the group. It takes no memory. There is room for its lines.
//
// The blocks are data blocks, and no two of the maps have one in common. What is said of the volumes
// asks that no inode of the volume of the device has one of the blocks, and that no map that gathered
// stands in one: so no image has another content for it.
//
// `Done` exactly where the power is on at the return; it empties the batch. `PowerLost` keeps batch and
// group. It takes at most 577 steps a block of a chain and 1 a map.
fn join(
    maps: &[NewMap],
    group: &mut Batch,
    batch: &mut Batch,
    pm: &mut Pm,
    power: &mut Power,
) -> Commit
    requires write { is_on power.old ≡ true → MayWriteAll maps.now pm.old }
    requires room { length group.old + length (new_lines group.old batch.old) ≤ 128 }
    ensures size { length pm.new ≡ length pm.old }
    ensures lent { SameLent pm.old pm.new }
    ensures steps { Steps (write_steps maps.now) power.old power.new }
    ensures on { result ≡ Commit.Done → is_on power.new ≡ true }
    ensures lost { result ≡ Commit.PowerLost → is_on power.new ≡ false }
    ensures off { is_on power.old ≡ false → (pm.new ≡ pm.old) × (power.new ≡ power.old) }

    // Each image is one of those before, but for words of the blocks.
    ensures each_image { Follows (SameOutside (blocks_of maps.now)) pm.old pm.new }
    ensures others { (i : ℕ) → IsOutside (blocks_of maps.now) i
        → Settles (cell pm.old i) (cell pm.new i) }

    // Done: the lines of both turn the volume of the device into the new one.
    ensures laid { result ≡ Commit.Done → AreLaid group.old batch.old group.new }
    ensures done { result ≡ Commit.Done → (g : Geometry) (news : List NewChain) (u v w : Volume)
        → AreGathered g news u v group.old pm.old
        → All (λ b. is_unused u b ≡ true) (blocks_of maps.now)
        → AreApart (blocks_of news) (blocks_of maps.now)
        → Turns g maps.now v w batch.old
        → AreGathered g (news ++ maps.now) u w group.new pm.new }
    ensures keeps { result ≡ Commit.Done → KeepsSingle pm.old pm.new }
    ensures empty { result ≡ Commit.Done → batch.new ≡ [] }
    ensures kept { result ≡ Commit.PowerLost → (group.new ≡ group.old) × (batch.new ≡ batch.old) }
{
    write_all(maps, pm, power);
    if !power.on() {
        return Commit::PowerLost;
    }
    group.lay(batch);
    Commit::Done
}

// Commits the group where the lines of the batch do not fit beside its own, 128 at most; then what
// waited is free.
fn make_room(
    tables: &mut Tables,
    group: &mut Batch,
    batch: &Batch,
    pm: &mut Pm,
    power: &mut Power,
) -> Commit
    requires on { is_on power.old ≡ true }
    requires opened { (u : Volume) × (t : TablesView) × IsAhead u t tables.old group.old pm.old }
    ensures steps { Steps (32 * length group.old + 16) power.old power.new }
    ensures on { result ≡ Commit.Done → is_on power.new ≡ true }
    ensures lost { result ≡ Commit.PowerLost → is_on power.new ≡ false }
    ensures volume { tables.new.volume ≡ tables.old.volume }
    ensures made { (u : Volume) (t : TablesView) → IsAhead u t tables.old group.old pm.old
        → IsRoomMade u t tables.old tables.new group.old batch.now group.new
        pm.old pm.new result }
{
    if group.has_room_for(batch) {
        return Commit::Done;
    }
    match commit_group(group, pm, tables.geometry(), power) {
        Commit::PowerLost => Commit::PowerLost,
        Commit::Done => {
            tables.settle();
            Commit::Done
        }
    }
}

/// A planned change joins the changes that gathered. Where its lines do not fit beside theirs, 128 at
/// most, these are committed before, and what waited is free; then its new maps are written, and its
/// lines are laid over those of the group. What came free in it waits. It takes no memory.
///
/// The power is on. `Done` exactly where it is on at the return; it empties the batch. It takes at most
/// 577 steps a block of a chain and 1 a map, and 32 a line of the group and 16.
pub fn gather(
    maps: &[NewMap],
    tables: &mut Tables,
    group: &mut Batch,
    batch: &mut Batch,
    pm: &mut Pm,
    power: &mut Power,
) -> Commit
    requires on { is_on power.old ≡ true }
    requires write { MayWriteAll maps.now pm.old }
    requires joins { (u : Volume) × (t : TablesView)
        × IsToJoin u t tables.old maps.now group.old batch.old pm.old }
    ensures steps { Steps (write_steps maps.now + (32 * length group.old + 16))
        power.old power.new }
    ensures on { result ≡ Commit.Done → is_on power.new ≡ true }
    ensures lost { result ≡ Commit.PowerLost → is_on power.new ≡ false }
    ensures joined { (u : Volume) (t : TablesView)
        → IsToJoin u t tables.old maps.now group.old batch.old pm.old
        → IsJoined u t tables.old tables.new maps.now group.old batch.old group.new
        pm.old pm.new result }
    ensures volume { tables.new.volume ≡ tables.old.volume }
    ensures none_aside { tables.new.aside ≡ [] }
    ensures empty { result ≡ Commit.Done → batch.new ≡ [] }
{
    let room = make_room(tables, group, batch, pm, power);
    tables.hold();
    match room {
        Commit::PowerLost => Commit::PowerLost,
        Commit::Done => join(maps, group, batch, pm, power),
    }
}
