//! Giving a node another path.
ghost use Rattle.std.specs.Prelude.{◌≡◌, ◌<◌, ◌≤◌, [], length, true, false, None, Some, IfOk, OnErr, OnOk};
ghost use Rattle.layout_model.specs.Lines.{is_inode, is_name_row};
ghost use Rattle.k_tables.specs.image_model.Reading.{node_set, row_set};
ghost use Rattle.k_tables.specs.image_model.Volume.{Volume, inode as inode_of};
ghost use Rattle.k_plans.specs.LandingsPlans.{Turns};
ghost use Rattle.k_plans.specs.PlansPlans.{IsPlan};
ghost use Rattle.k_plans.specs.Renaming.{IsRenamePlan, IsUnmoved, file_over, renamed_to};
ghost use Rattle.layout_model.specs.Spelling.{AreSpelled};
ghost use Rattle.k_plans.specs.View.{with_volume};
ghost use Rattle.k_tables.specs.k_split_model.ChangesChanges.{renamed, renamed_over_directory, renamed_over_file};
ghost use Rattle.k_tables.specs.k_split_model.Spaces.{is_directory_in, volume_space};
ghost use Rattle.k_tables.specs.Found.{IsMoving};
ghost use Rattle.k_tables.specs.Refusals.{outcome_of};
ghost use Rattle.k_tables.specs.posix_tables.NameRows.{rename_rows};
ghost use Rattle.k_tables.specs.posix_tables.Outcomes.{first};
ghost use Rattle.volume_change_laws.specs.CallLaws.{row_to};

use crate::landings::{Batch, Geometry, clear_name, put_inode, put_name};
use crate::plans::faults::{PlanFault, fault_of};
use crate::plans::making::{name_line, set_name};
use crate::plans::removing::gone_node;
use crate::plans::tables::Tables;
use k_tables::{Entry, Moving, NameLine, Refusal, entries_to_rename, is_directory};
use layout_model::Inode;
use posix_types::Path;
use std::alloc::{AllocError, Global};

// What a refused rename answers.
fn unmoved(refusal: Refusal) -> Result<Option<u32>, PlanFault>
    ensures { IsUnmoved (Some (outcome_of refusal)) result }
{
    match refusal {
        Refusal::Idle => Ok(None),
        Refusal::Errno(_) | Refusal::Room(_) => Err(fault_of(refusal)),
    }
}

// Plans a name line in place of another one, which is freed.
fn put_over_file(batch: &mut Batch, geometry: &Geometry, line: u32, name: &NameLine, target: u32)
    requires empty { batch.old ≡ [] }
    requires line { line < geometry.now.names }
    requires target { target < geometry.now.names }
    requires name { is_name_row name.now ≡ true }
    ensures some { 0 < length batch.new }
    ensures most { length batch.new ≤ 2 }
    ensures turns { (v : Volume) → Turns geometry.now [] v
        (row_set line (Some name.now) (row_set target None v)) batch.new }
{
    clear_name(batch, geometry, target);
    put_name(batch, geometry, line, name);
}

// The same, and the inode of the line that is freed goes.
fn put_over_directory(
    batch: &mut Batch,
    geometry: &Geometry,
    line: u32,
    name: &NameLine,
    target: Entry,
    gone: &Inode,
)
    requires empty { batch.old ≡ [] }
    requires line { line < geometry.now.names }
    requires target { target.line < geometry.now.names }
    requires ino { target.child < geometry.now.inodes }
    requires name { is_name_row name.now ≡ true }
    requires gone { is_inode gone.now ≡ true }
    ensures some { 0 < length batch.new }
    ensures most { length batch.new ≤ 3 }
    ensures turns { (v : Volume) → gone.now.root ≡ (inode_of v target.child).root
        → gone.now.extents ≡ (inode_of v target.child).extents → Turns geometry.now [] v
        (row_set line (Some name.now) (row_set target.line None (node_set target.child gone.now v)))
        batch.new }
{
    put_inode(batch, geometry, target.child, gone);
    clear_name(batch, geometry, target.line);
    put_name(batch, geometry, line, name);
}

impl Tables {
    // Gives a node a path where nothing stands. An error leaves tables and batch as they were.
    fn move_new(
        &mut self,
        batch: &mut Batch,
        path: &Path,
        to: &Path,
        moving: Moving,
        name: NameLine,
    ) -> Result<(), AllocError>
        requires empty { batch.old ≡ [] }
        requires idle { self.old.aside ≡ [] }
        requires spelled { AreSpelled to.now }
        requires rows { first (rename_rows (volume_space self.old.volume) path.now to.now) ≡ None }
        requires moving { IsMoving self.old.volume.inodes self.old.volume.names
            path.now to.now moving }
        requires name { name ≡ row_to to.now moving.parent moving.entry.child }
        requires target { moving.target ≡ None }
        ensures renamed { OnOk result (self.new
            ≡ with_volume (renamed moving.entry.line name self.old.volume) self.old) }
        ensures plan { OnOk result (IsPlan self.old self.new batch.new) }
        ensures same { OnErr result (self.new ≡ self.old) }
        ensures no_lines { OnErr result (batch.new ≡ []) }
    {
        put_name(batch, &self.geometry, moving.entry.line, &name);
        set_name(&mut self.names, batch, moving.entry.line, name)?;
        Ok(())
    }

    // Gives a file the path of another one.
    fn move_over_file(
        &mut self,
        batch: &mut Batch,
        path: &Path,
        to: &Path,
        moving: Moving,
        name: NameLine,
        target: Entry,
    )
        requires empty { batch.old ≡ [] }
        requires idle { self.old.aside ≡ [] }
        requires spelled { AreSpelled to.now }
        requires rows { first (rename_rows (volume_space self.old.volume) path.now to.now) ≡ None }
        requires moving { IsMoving self.old.volume.inodes self.old.volume.names
            path.now to.now moving }
        requires name { name ≡ row_to to.now moving.parent moving.entry.child }
        requires target { moving.target ≡ Some target }
        requires file { is_directory_in self.old.volume.inodes target.child ≡ false }
        ensures renamed { self.new ≡ with_volume
            (renamed_over_file moving.entry.line name target.line self.old.volume) self.old }
        ensures plan { IsPlan self.old self.new batch.new }
    {
        put_over_file(batch, &self.geometry, moving.entry.line, &name, target.line);
        self.names.set_over(moving.entry.line, name, target.line);
    }

    // Gives a directory the path of an empty one.
    fn move_over_directory(
        &mut self,
        batch: &mut Batch,
        path: &Path,
        to: &Path,
        moving: Moving,
        name: NameLine,
        target: Entry,
    )
        requires empty { batch.old ≡ [] }
        requires idle { self.old.aside ≡ [] }
        requires spelled { AreSpelled to.now }
        requires rows { first (rename_rows (volume_space self.old.volume) path.now to.now) ≡ None }
        requires moving { IsMoving self.old.volume.inodes self.old.volume.names
            path.now to.now moving }
        requires name { name ≡ row_to to.now moving.parent moving.entry.child }
        requires target { moving.target ≡ Some target }
        requires directory { is_directory_in self.old.volume.inodes target.child ≡ true }
        ensures renamed { self.new ≡ with_volume (renamed_over_directory
            moving.entry.line name target.line target.child self.old.volume) self.old }
        ensures plan { IsPlan self.old self.new batch.new }
    {
        let gone = gone_node(self.inodes[target.child as usize]);
        put_over_directory(
            batch,
            &self.geometry,
            moving.entry.line,
            &name,
            target,
            &gone,
        );
        self.inodes[target.child as usize] = gone;
        self.names.set_over(moving.entry.line, name, target.line);
    }

    // Gives a node its new path, and answers the file that loses its name. An error leaves tables and
    // batch as they were.
    fn move_to(
        &mut self,
        batch: &mut Batch,
        path: &Path,
        to: &Path,
        moving: Moving,
        name: NameLine,
    ) -> Result<Option<u32>, AllocError>
        requires empty { batch.old ≡ [] }
        requires idle { self.old.aside ≡ [] }
        requires spelled { AreSpelled to.now }
        requires rows { first (rename_rows (volume_space self.old.volume) path.now to.now) ≡ None }
        requires moving { IsMoving self.old.volume.inodes self.old.volume.names
            path.now to.now moving }
        requires name { name ≡ row_to to.now moving.parent moving.entry.child }
        ensures lost { IfOk result (λ lost.
            lost ≡ file_over self.old.volume.inodes moving.target) }
        ensures renamed { OnOk result (self.new
            ≡ with_volume (renamed_to to.now moving self.old.volume) self.old) }
        ensures plan { OnOk result (IsPlan self.old self.new batch.new) }
        ensures same { OnErr result (self.new ≡ self.old) }
        ensures no_lines { OnErr result (batch.new ≡ []) }
    {
        match moving.target {
            None => {
                self.move_new(batch, path, to, moving, name)?;
                Ok(None)
            }
            Some(target) => {
                if is_directory(&self.inodes, target.child) {
                    self.move_over_directory(batch, path, to, moving, name, target);
                    Ok(None)
                } else {
                    self.move_over_file(batch, path, to, moving, name, target);
                    Ok(Some(target.child))
                }
            }
        }
    }

    /// Gives a node another path, and plans its name line; what stands at the new path loses its
    /// name in the same plan, and is gone if it is a directory. It answers the file that lost its
    /// name, which stays. The batch is empty, and the new path is spelled.
    ///
    /// `Refused` comes exactly where the rows of `rename` say. Where both paths are those of one
    /// node, it answers `Ok(None)` and plans nothing.
    pub fn rename(
        &mut self,
        alloc: Global,
        batch: &mut Batch,
        path: &Path,
        to: &Path,
    ) -> Result<Option<u32>, PlanFault>
        requires empty { batch.old ≡ [] }
        requires idle { self.old.aside ≡ [] }
        requires spelled { AreSpelled to.now }
        ensures { IsRenamePlan path.now to.now self.old self.new batch.new result }
    {
        match entries_to_rename(&self.inodes, &self.names, path, to) {
            Err(refusal) => unmoved(refusal),
            Ok(moving) => match name_line(alloc, moving.parent, moving.entry.child, to) {
                Err(_) => Err(PlanFault::NoMemory),
                Ok(name) => match self.move_to(batch, path, to, moving, name) {
                    Err(_) => Err(PlanFault::NoMemory),
                    Ok(lost) => Ok(lost),
                },
            },
        }
    }
}
