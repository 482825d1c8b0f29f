//! Maps that change: blocks are set aside, and inodes go over to maps.
ghost use Rattle.std.specs.Prelude.{◌≡◌, ◌<◌, ◌≤◌, ◌+◌, ℕ, List, length, OnErr, IfNone, IfOk, IfSome};
ghost use Rattle.k_tables.specs.image_model.Chains.{first_or_zero};
ghost use Rattle.k_tables.specs.image_model.Volume.{Volume, chain, extents};
ghost use Rattle.k_tables.specs.extent_model.Extents.{IsCanonical};
ghost use Rattle.k_plans.specs.LandingsPlans.{IsMapFrom, NewChain, Turns};
ghost use Rattle.k_plans.specs.Free.{AreAsideOnce, AreKeptBack, free_blocks, is_free_block};
ghost use Rattle.k_plans.specs.Switching.{IsSetAside, switched_tables};
ghost use Rattle.k_plans.specs.Whole.{IsWhole};
ghost use Rattle.volume_change_laws.specs.k_split_model.Taken.{with_map};
ghost use Rattle.volume_change_laws.specs.Switches.{MaySwitch};

use crate::landings::{Batch, put_inode};
use crate::plans::tables::Tables;
use extent_map::ExtentMap;
use k_reading::Blocks;
use layout_model::Inode;
use std::alloc::{AllocError, Global};

// The first block of a chain, 0 where there is none.
fn root_of(blocks: &[u32]) -> u32
    ensures { result ≡ first_or_zero blocks.now }
{
    match blocks.first() {
        Some(block) => *block,
        None => 0,
    }
}

// The inode with this map, whose chain has these blocks.
fn with_map(inode: &Inode, map: &ExtentMap, blocks: &[u32]) -> Inode
    ensures line { result ≡ with_map blocks.now map.now inode.now }
    ensures canonical { IsCanonical map.now }
{
    Inode {
        root: root_of(blocks),
        extents: map.extents().len() as u32,
        ..*inode
    }
}

impl Tables {
    /// The blocks of the chain of an inode, in their order.
    pub fn chain(&self, ino: u32) -> &[u32]
        requires { ino < length self.now.volume.inodes }
        ensures { result.now ≡ chain self.now.volume ino }
    {
        &self.chains[ino as usize].blocks
    }

    /// The map of an inode once more, to be changed. The volume keeps the rules, and blocks that are
    /// set aside or wait are unused.
    pub fn map_copied(&self, alloc: Global, ino: u32) -> Result<ExtentMap, AllocError>
        requires { ino < length self.now.volume.inodes }
        ensures copy { IfOk result (λ map. map ≡ extents self.now.volume ino) }
        ensures canonical { IsCanonical (extents self.now.volume ino) }
        ensures whole { IsWhole self.now.volume }
        ensures back { AreKeptBack self.now }
    {
        self.maps[ino as usize].copied(alloc)
    }

    /// Sets the `count` lowest free blocks aside and answers them in rising order. None exactly where
    /// fewer are free. None and an error leave the tables as they were.
    pub fn set_aside(&mut self, count: u32) -> Result<Option<Vec<u32>>, AllocError>
        ensures taken { IfOk result (λ answer.
            IfSome answer (λ taken. IsSetAside count taken.items self.old self.new)) }
        ensures left { IfOk result (λ answer. IfSome answer (λ _.
            free_blocks self.new + count ≡ free_blocks self.old)) }
        ensures few { IfOk result (λ answer. IfNone answer (free_blocks self.old < count)) }
        ensures none { IfOk result (λ answer. IfNone answer (self.new ≡ self.old)) }
        ensures err { OnErr result (self.new ≡ self.old) }
        ensures whole { IsWhole self.old.volume }
        ensures back { AreKeptBack self.old }
    {
        self.aside.reserve(count as usize)?;
        let Some(taken) = self.pool.take(count)? else {
            return Ok(None);
        };
        let _noted = self.aside.extend_from_slice(&taken);
        Ok(Some(taken))
    }

    /// Gives an inode another map, whose chain has these blocks, and plans its line. The blocks of
    /// the map and of the chain were set aside, or were the inode's own; `aside` are those that are
    /// set aside then. No block comes free, and none is taken. It takes no memory. There is room for
    /// one more line: a batch has at most 128.
    pub fn switch(
        &mut self,
        batch: &mut Batch,
        ino: u32,
        inode: &Inode,
        map: ExtentMap,
        blocks: Vec<u32>,
        aside: Vec<u32>,
    )
        requires room { length batch.old < 128 }
        requires may { MaySwitch self.old.volume self.old.aside ino inode.now blocks.items map aside.items }
        ensures switched { self.new
            ≡ switched_tables ino inode.now blocks.items map aside.items self.old }
        ensures free { (b : ℕ) → is_free_block self.new b ≡ is_free_block self.old b }
        ensures some { 0 < length batch.new }
        ensures count { length batch.new ≤ length batch.old + 1 }
        ensures turns { (news : List NewChain) (v : Volume)
            → IsMapFrom news self.old.volume ino (with_map blocks.items map inode.now) blocks.items map
            → Turns self.old.volume.geometry news v self.old.volume batch.old
            → Turns self.old.volume.geometry news v self.new.volume batch.new }
        ensures once { AreAsideOnce self.new }
        ensures back { AreKeptBack self.new }
        ensures whole { IsWhole self.new.volume }
    {
        let place = ino as usize;
        let alloc = *self.aside.allocator();
        let inode = with_map(inode, &map, &blocks);
        put_inode(batch, &self.geometry, ino, &inode);
        self.inodes[place] = inode;
        self.chains[place] = Blocks { blocks };
        self.maps[place] = map;
        self.dropped = ExtentMap::new(alloc);
        self.aside = aside;
    }
}
