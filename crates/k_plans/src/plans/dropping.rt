//! Giving a node up, with its map.
ghost use Rattle.std.specs.Prelude.{◌≡◌, []};
ghost use Rattle.k_plans.specs.PlansPlans.{IsPlan};
ghost use Rattle.k_tables.specs.k_split_model.ChangesChanges.{dropped};
ghost use Rattle.volume_change_laws.specs.Changes.{MayDrop};

use crate::landings::{Batch, put_inode};
use crate::plans::removing::gone_node;
use crate::plans::tables::Tables;
use extent_map::ExtentMap;
use k_reading::Blocks;
use std::mem;

impl Tables {
    /// Gives up a file that has no name, and plans its inode, which is free then and keeps its
    /// generation. The blocks of the file are set aside. It takes no memory. The batch is empty.
    pub fn drop_node(&mut self, batch: &mut Batch, ino: u32)
        requires empty { batch.old ≡ [] }
        requires idle { self.old.aside ≡ [] }
        requires may { MayDrop ino self.old.volume }
        ensures dropped { self.new.volume ≡ dropped ino self.old.volume }
        ensures plan { IsPlan self.old self.new batch.new }
    {
        let place = ino as usize;
        let alloc = *self.aside.allocator();
        let gone = gone_node(self.inodes[place]);
        put_inode(batch, &self.geometry, ino, &gone);
        let none = Blocks {
            blocks: Vec::new(alloc),
        };
        let chain = mem::replace(&mut self.chains[place], none);
        let map = mem::replace(&mut self.maps[place], ExtentMap::new(alloc));
        self.inodes[place] = gone;
        self.aside = chain.blocks;
        self.dropped = map;
    }
}
