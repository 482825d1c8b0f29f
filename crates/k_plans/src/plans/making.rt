//! Making a node with its name.
ghost use Rattle.std.specs.Prelude.{◌≡◌, ◌<◌, ◌≤◌, ℕ, [], length, slice_set, true, false, Some, IfOk, OnErr, OnOk};
ghost use Rattle.layout_model.specs.Lines.{is_inode, is_name_row};
ghost use Rattle.layout_model.specs.Names.{is_entry, row};
ghost use Rattle.k_tables.specs.image_model.Reading.{node_set, row_set};
ghost use Rattle.k_tables.specs.image_model.Volume.{Volume, inode as inode_of};
ghost use Rattle.k_plans.specs.LandingsPlans.{Turns};
ghost use Rattle.k_plans.specs.Making.{IsMakePlan, kind_of, made_at};
ghost use Rattle.k_plans.specs.PlansPlans.{IsPlan};
ghost use Rattle.layout_model.specs.Spelling.{AreSpelled};
ghost use Rattle.k_plans.specs.View.{with_volume};
ghost use Rattle.k_tables.specs.k_split_model.ChangesChanges.{new_node};
ghost use Rattle.k_tables.specs.Found.{IsPlace};
ghost use Rattle.k_tables.specs.posix_tables.Names.{is_root};
ghost use Rattle.volume_change_laws.specs.CallLaws.{row_to};

use crate::landings::{Batch, Geometry, put_inode, put_name};
use crate::plans::faults::{PlanFault, fault_of};
use crate::plans::tables::Tables;
use k_tables::{NameLine, NameTable, Place, place_to_make};
use layout_model::{Inode, Kind};
use posix_types::{Name, Path};
use std::alloc::{AllocError, Global};

// The inode of a new node, in the place of a free one.
fn new_node(directory: bool, free: Inode) -> Inode
    ensures node { result ≡ new_node (kind_of directory) free }
    ensures fields { is_inode result ≡ true }
{
    let kind = if directory {
        Kind::Directory
    } else {
        Kind::File
    };
    Inode {
        kind,
        generation: free.generation.wrapping_add(1),
        size: 0,
        applied: 0,
        root: 0,
        extents: 0,
    }
}

// The name line of the last name of a path.
pub(crate) fn name_line(
    alloc: Global,
    parent: u32,
    child: u32,
    path: &Path,
) -> Result<NameLine, AllocError>
    requires { is_root path.now ≡ false }
    ensures { IfOk result (λ line. line ≡ row_to path.now parent child) }
{
    let name = &path.names[path.names.len() - 1];
    let bytes = Vec::from_slice(alloc, &name.bytes)?;
    Ok(NameLine {
        parent,
        child,
        name: Name { bytes },
    })
}

// Gives a name line of the tables its name. Where memory runs out the plan is given up.
pub(crate) fn set_name(
    names: &mut NameTable,
    batch: &mut Batch,
    line: u32,
    name: NameLine,
) -> Result<(), AllocError>
    requires in_table { line < length names.old }
    requires new { (k : ℕ) → is_entry name.parent name.name (row names.old k) ≡ true → k ≡ line }
    ensures set { OnOk result (names.new ≡ slice_set names.old line (Some name)) }
    ensures planned { OnOk result (batch.new ≡ batch.old) }
    ensures same { OnErr result (names.new ≡ names.old) }
    ensures no_lines { OnErr result (batch.new ≡ []) }
{
    let done = names.set(line, name);
    if done.is_err() {
        batch.clear();
    }
    done
}

// Plans a node with its name.
fn put_node(batch: &mut Batch, geometry: &Geometry, place: Place, inode: &Inode, name: &NameLine)
    requires empty { batch.old ≡ [] }
    requires ino { place.ino < geometry.now.inodes }
    requires line { place.line < geometry.now.names }
    requires inode { is_inode inode.now ≡ true }
    requires name { is_name_row name.now ≡ true }
    ensures some { 0 < length batch.new }
    ensures most { length batch.new ≤ 2 }
    ensures turns { (v : Volume) → inode.now.root ≡ (inode_of v place.ino).root
        → inode.now.extents ≡ (inode_of v place.ino).extents → Turns geometry.now [] v
        (row_set place.line (Some name.now) (node_set place.ino inode.now v)) batch.new }
{
    put_inode(batch, geometry, place.ino, inode);
    put_name(batch, geometry, place.line, name);
}

impl Tables {
    // Makes a node in its place, with that name. An error leaves tables and batch as they were.
    fn make_at(
        &mut self,
        batch: &mut Batch,
        path: &Path,
        directory: bool,
        place: Place,
        name: NameLine,
    ) -> Result<(), AllocError>
        requires empty { batch.old ≡ [] }
        requires idle { self.old.aside ≡ [] }
        requires spelled { AreSpelled path.now }
        requires place { IsPlace self.old.volume.inodes self.old.volume.names path.now place }
        requires name { name ≡ row_to path.now place.parent place.ino }
        ensures made { OnOk result (self.new
            ≡ with_volume (made_at directory path.now place self.old.volume) self.old) }
        ensures plan { OnOk result (IsPlan self.old self.new batch.new) }
        ensures same { OnErr result (self.new ≡ self.old) }
        ensures no_lines { OnErr result (batch.new ≡ []) }
    {
        let inode = new_node(directory, self.inodes[place.ino as usize]);
        put_node(batch, &self.geometry, place, &inode, &name);
        set_name(&mut self.names, batch, place.line, name)?;
        self.inodes[place.ino as usize] = inode;
        Ok(())
    }

    /// Makes a directory or a file, and plans its inode and its name. It answers the inode. The
    /// node takes the lowest free inode, whose generation rises by 1 modulo 2^32, and the name the
    /// lowest free line. The batch is empty, and the path is spelled.
    ///
    /// `Refused` and `Room` come exactly where the rows of `mkdir` say.
    pub fn make(
        &mut self,
        alloc: Global,
        batch: &mut Batch,
        path: &Path,
        directory: bool,
    ) -> Result<u32, PlanFault>
        requires empty { batch.old ≡ [] }
        requires idle { self.old.aside ≡ [] }
        requires spelled { AreSpelled path.now }
        ensures { IsMakePlan directory path.now self.old self.new batch.new result }
    {
        match place_to_make(&self.inodes, &self.names, path) {
            Err(refusal) => Err(fault_of(refusal)),
            Ok(place) => match name_line(alloc, place.parent, place.ino, path) {
                Err(_) => Err(PlanFault::NoMemory),
                Ok(name) => match self.make_at(batch, path, directory, place, name) {
                    Err(_) => Err(PlanFault::NoMemory),
                    Ok(()) => Ok(place.ino),
                },
            },
        }
    }
}
