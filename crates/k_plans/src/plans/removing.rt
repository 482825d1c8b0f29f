//! Taking names away.
ghost use Rattle.std.specs.Prelude.{◌≡◌, ◌≢◌, ◌<◌, ◌≤◌, [], length, true, None, Err};
ghost use Rattle.layout_model.specs.Lines.{is_inode};
ghost use Rattle.k_tables.specs.image_model.Reading.{node_set, row_set};
ghost use Rattle.k_tables.specs.image_model.Volume.{Volume, inode as inode_of};
ghost use Rattle.k_plans.specs.LandingsPlans.{Turns};
ghost use Rattle.k_plans.specs.PlansPlans.{IsPlan};
ghost use Rattle.k_plans.specs.Removing.{IsRmdirPlan, IsUnlinkPlan};
ghost use Rattle.k_plans.specs.View.{with_volume};
ghost use Rattle.k_tables.specs.k_split_model.ChangesChanges.{gone_node, removed, unnamed};
ghost use Rattle.k_tables.specs.Found.{IsDirectoryAt, IsFileAt};

use crate::landings::{Batch, Geometry, clear_name, put_inode};
use crate::plans::faults::{PlanFault, fault_of};
use crate::plans::tables::Tables;
use k_tables::{Entry, directory_to_remove, entry_to_unlink};
use layout_model::{Inode, Kind};
use posix_types::Path;

// A free inode, which keeps the generation of the one that goes.
pub(crate) fn gone_node(inode: Inode) -> Inode
    ensures { result ≡ gone_node inode }
{
    Inode {
        kind: Kind::Free,
        generation: inode.generation,
        size: 0,
        applied: 0,
        root: 0,
        extents: 0,
    }
}

// Plans an inode that goes, and a name line that is freed. An inode that goes has no map.
pub(crate) fn put_removal(batch: &mut Batch, geometry: &Geometry, line: u32, ino: u32, gone: &Inode)
    requires empty { batch.old ≡ [] }
    requires line { line < geometry.now.names }
    requires ino { ino < geometry.now.inodes }
    requires fields { is_inode gone.now ≡ true }
    ensures some { 0 < length batch.new }
    ensures most { length batch.new ≤ 2 }
    ensures turns { (v : Volume) → gone.now.root ≡ (inode_of v ino).root
        → gone.now.extents ≡ (inode_of v ino).extents
        → Turns geometry.now [] v (row_set line None (node_set ino gone.now v)) batch.new }
{
    put_inode(batch, geometry, ino, gone);
    clear_name(batch, geometry, line);
}

impl Tables {
    // Takes the name of a file away.
    fn unlink_at(&mut self, batch: &mut Batch, path: &Path, entry: Entry)
        requires empty { batch.old ≡ [] }
        requires idle { self.old.aside ≡ [] }
        requires entry { IsFileAt self.old.volume.inodes self.old.volume.names path.now entry }
        ensures unnamed { self.new ≡ with_volume (unnamed entry.line self.old.volume) self.old }
        ensures plan { IsPlan self.old self.new batch.new }
    {
        clear_name(batch, &self.geometry, entry.line);
        self.names.clear(entry.line);
    }

    /// Takes the name of a file away, and plans its line. It answers the file's inode, which stays.
    /// The batch is empty.
    ///
    /// `Refused` comes exactly where the rows of `unlink` say. It takes no memory.
    pub fn unlink(&mut self, batch: &mut Batch, path: &Path) -> Result<u32, PlanFault>
        requires empty { batch.old ≡ [] }
        requires idle { self.old.aside ≡ [] }
        ensures answer { IsUnlinkPlan path.now self.old self.new batch.new result }
        ensures memory { result ≢ Err PlanFault.NoMemory }
    {
        match entry_to_unlink(&self.inodes, &self.names, path) {
            Err(refusal) => Err(fault_of(refusal)),
            Ok(entry) => {
                self.unlink_at(batch, path, entry);
                Ok(entry.child)
            }
        }
    }

    // Takes a directory without entries away.
    fn remove_at(&mut self, batch: &mut Batch, path: &Path, entry: Entry)
        requires empty { batch.old ≡ [] }
        requires idle { self.old.aside ≡ [] }
        requires entry { IsDirectoryAt self.old.volume.inodes self.old.volume.names path.now entry }
        ensures removed { self.new
            ≡ with_volume (removed entry.line entry.child self.old.volume) self.old }
        ensures plan { IsPlan self.old self.new batch.new }
    {
        let gone = gone_node(self.inodes[entry.child as usize]);
        put_removal(batch, &self.geometry, entry.line, entry.child, &gone);
        self.inodes[entry.child as usize] = gone;
        self.names.clear(entry.line);
    }

    /// Takes an empty directory away, and plans its inode and its name. The inode is free then, and
    /// keeps its generation. The batch is empty.
    ///
    /// `Refused` comes exactly where the rows of `rmdir` say. It takes no memory.
    pub fn rmdir(&mut self, batch: &mut Batch, path: &Path) -> Result<(), PlanFault>
        requires empty { batch.old ≡ [] }
        requires idle { self.old.aside ≡ [] }
        ensures answer { IsRmdirPlan path.now self.old self.new batch.new result }
        ensures memory { result ≢ Err PlanFault.NoMemory }
    {
        match directory_to_remove(&self.inodes, &self.names, path) {
            Err(refusal) => Err(fault_of(refusal)),
            Ok(entry) => {
                self.remove_at(batch, path, entry);
                Ok(())
            }
        }
    }
}
