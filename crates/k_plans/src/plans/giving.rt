//! Blocks that come free.
ghost use Rattle.std.specs.Prelude.{◌≡◌, ℕ, ◌+◌, ◌≤◌, ◌<◌, ◌^◌, true, false, length};
ghost use Rattle.k_reading.specs.block_pool.FreeSets.{is_among, is_free_at};
ghost use Rattle.k_tables.specs.extent_model.Extents.{covers, is_within};
ghost use Rattle.k_plans.specs.Giving.{AreGiven, MayGiveChain, MayGiveMap};

use extent_map::Extent;
use k_reading::Pool;

// Makes the blocks of a chain free.
pub(crate) fn give_chain(pool: &mut Pool, blocks: &[u32])
    requires { MayGiveChain blocks.now pool.old }
    ensures { AreGiven (is_among blocks.now) pool.old pool.new }
{
    for block in blocks {
        pool.give(*block);
    }
}

// Makes `count` blocks from `first` on free.
fn give_run(pool: &mut Pool, first: u32, count: u32)
    requires fits { first + count < 2 ^ 32 }
    requires low { pool.old.first ≤ first }
    requires high { first + count ≤ pool.old.first + length pool.old.marks }
    requires used { (b : ℕ) → is_within first count b ≡ true → is_free_at pool.old b ≡ false }
    ensures { AreGiven (is_within first count) pool.old pool.new }
{
    for block in first..first + count {
        pool.give(block);
    }
}

// Makes the disk blocks of extents free.
pub(crate) fn give_map(pool: &mut Pool, extents: &[Extent])
    requires { MayGiveMap extents.now pool.old }
    ensures { AreGiven (covers extents.now) pool.old pool.new }
{
    for extent in extents {
        give_run(pool, extent.disk, extent.count);
    }
}
