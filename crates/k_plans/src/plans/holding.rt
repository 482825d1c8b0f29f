//! Blocks that are set aside come free, or wait for a commit; and those that wait come free.
ghost use Rattle.std.specs.Prelude.{◌≡◌, ◌<◌, ℕ, [], length, true, false};
ghost use Rattle.k_reading.specs.block_pool.FreeSets.{is_among};
ghost use Rattle.k_tables.specs.image_model.Placed.{extent_at};
ghost use Rattle.k_tables.specs.extent_model.Extents.{holds_disk};
ghost use Rattle.k_plans.specs.Free.{AreKeptBack};
ghost use Rattle.k_plans.specs.Giving.{AreGiven, MayGiveChain, MayGiveMap, is_held};
ghost use Rattle.k_plans.specs.Switching.{IsHeld, with_aside, with_waiting};

use crate::plans::giving::{give_chain, give_map};
use crate::plans::tables::Tables;
use extent_map::{Extent, ExtentMap};
use k_reading::Pool;

// Gives a pool the blocks of a list and those of a map.
fn give_all(pool: &mut Pool, blocks: &[u32], extents: &[Extent])
    requires chain { MayGiveChain blocks.now pool.old }
    requires map { MayGiveMap extents.now pool.old }
    requires apart { (k b : ℕ) → k < length extents.now
        → holds_disk (extent_at extents.now k) b ≡ true → is_among blocks.now b ≡ false }
    ensures { AreGiven (is_held blocks.now extents.now) pool.old pool.new }
{
    give_chain(pool, blocks);
    give_map(pool, extents);
}

impl Tables {
    /// Makes all blocks free that are set aside: what freed them is on the device, or the change is not
    /// made. It takes no memory.
    pub fn release(&mut self)
        ensures released { self.new ≡ with_aside [] self.old }
        ensures back { AreKeptBack self.new }
    {
        let alloc = *self.aside.allocator();
        give_all(&mut self.pool, &self.aside, self.dropped.extents());
        self.dropped = ExtentMap::new(alloc);
        self.aside.clear();
    }

    /// Lets all blocks wait that are set aside: what freed them gathers, and is not on the device. It
    /// takes no memory.
    pub fn hold(&mut self)
        ensures held { IsHeld self.old self.new }
        ensures back { AreKeptBack self.new }
    {
        let alloc = *self.aside.allocator();
        give_all(&mut self.held, &self.aside, self.dropped.extents());
        self.dropped = ExtentMap::new(alloc);
        self.aside.clear();
    }

    /// Makes all blocks free that wait: what freed them is committed. It takes no memory.
    pub fn settle(&mut self)
        ensures settled { self.new ≡ with_waiting [] self.old }
        ensures back { AreKeptBack self.new }
    {
        if self.held.free() > 0 {
            self.pool.take_in(&mut self.held);
        }
    }
}
