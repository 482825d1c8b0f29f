//! What is kept, and the look-up.
ghost use Rattle.std.specs.Prelude.{◌≡◌, [], IfOk, OnErr};
ghost use Rattle.extent_map.specs.extent_model.Extents.{disk_at};
ghost use Rattle.map_collection.specs.Kept.{Agrees, KeepsNothing, KeepsOthers};

use crate::regions::{REGION, REGIONS, disk_of, disks_from, region_of};
use extent_map::{ExtentMap, FILE_BLOCKS};
use std::alloc::{AllocError, Global};
use std::collections::BTreeMap;
use std::marker::Model;

/// Translations of file blocks, by inode and block.
#[derive(Drop)]
pub struct Collection {
    alloc: Global,
    // What maps say of the regions that were asked for, by their numbers.
    regions: BTreeMap<u64, Vec<Option<u32>>>,
}

impl Model for Collection {
    ghost use Rattle.std.specs.Prelude.{List};
    ghost use Rattle.map_collection.specs.Kept.{Answer};
    ghost use Rattle.map_collection.specs.Regions.{answers_in};

    ghost Value = { List Answer };

    ghost view = { λ c. answers_in c.regions.entries };
}

impl Collection {
    /// Nothing is kept. It takes no memory before a look-up.
    pub fn new(alloc: Global) -> Collection
        ensures { result ≡ [] }
    {
        Collection {
            alloc,
            regions: BTreeMap::new(alloc),
        }
    }

    /// The disk block of a file block, as the inode's map says. What is kept of the inode agrees with
    /// the map, afterwards too.
    ///
    /// # Errors
    ///
    /// Out of memory: what is kept is as before.
    pub fn lookup(
        &mut self,
        ino: u32,
        block: u32,
        map: &ExtentMap,
    ) -> Result<Option<u32>, AllocError>
        requires { Agrees self.old ino map.now }
        ensures disk { IfOk result (λ disk. disk ≡ disk_at map.now block) }
        ensures agrees { Agrees self.new ino map.now }
        ensures others { KeepsOthers ino self.old self.new }
        ensures memory { OnErr result (self.new ≡ self.old) }
    {
        if block >= FILE_BLOCKS {
            return Ok(map.lookup(block));
        }
        let region = region_of(ino, block);
        if let Some(disks) = self.regions.get(&region) {
            return Ok(disk_of(disks, block));
        }
        let disks = disks_from(self.alloc, map, block / REGION * REGION)?;
        let disk = disk_of(&disks, block);
        self.regions.insert(region, disks)?;
        Ok(disk)
    }

    /// Nothing is kept of an inode any longer, and the rest stays.
    pub fn forget(&mut self, ino: u32)
        ensures gone { KeepsNothing self.new ino }
        ensures others { KeepsOthers ino self.old self.new }
    {
        let first = region_of(ino, 0);
        for i in 0..u64::from(REGIONS) {
            let _disks = self.regions.remove(&(first + i));
        }
    }
}
