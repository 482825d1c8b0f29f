// Rules 8, 9 and 10: what is asked of the tables of a volume as a whole.
ghost use Rattle.std.specs.Prelude.{◌≡◌, ◌^◌, ◌<◌, length, IfOk, IfErr, OnOk};
ghost use Rattle.k_reading.specs.image_model.Broken.{Holds, HoldAll, FailsFirst};
ghost use Rattle.k_reading.specs.image_model.Volume.{Volume};
ghost use Rattle.k_reading.specs.Pools.{AreInData, IsOfTables};
ghost use Rattle.check_image.specs.Above.{HaveChildrenBelow};
ghost use Rattle.check_image.specs.Answers.{IsFirstOf};
ghost use Rattle.check_image.specs.Readings.{blocks_rule, tree_rules, AreUseMarks, AreNameMarks};

use crate::blocks::{count_uses, first_twice};
use crate::faults::BadImage;
use crate::names::{are_directories_named, bad_row, count_names, parents_above};
use k_journal::Geometry;
use k_reading::{Inode, Maps, NameLine};
use std::alloc::{AllocError, Global};

/// Rule 8: how often each data block is named, or the first that is named twice.
pub(crate) fn check_blocks(
    alloc: Global,
    geometry: &Geometry,
    maps: &Maps,
) -> Result<Result<Vec<u8>, u32>, AllocError>
    requires { AreInData geometry.now maps.now.chains.items maps.now.maps.items }
    ensures marks { IfOk result (λ read. IfOk read (λ marks. (v : Volume)
        → IsOfTables geometry.now maps.now.chains.items maps.now.maps.items v
        → AreUseMarks v marks.items)) }
    ensures ok { IfOk result (λ read. OnOk read ((v : Volume)
        → IsOfTables geometry.now maps.now.chains.items maps.now.maps.items v
        → Holds (blocks_rule v))) }
    ensures bad { IfOk result (λ read. IfErr read (λ place. (v : Volume)
        → IsOfTables geometry.now maps.now.chains.items maps.now.maps.items v
        → FailsFirst (blocks_rule v) place)) }
{
    let first = geometry.first_data();
    let marks = count_uses(alloc, geometry, &maps.chains, &maps.maps)?;
    match first_twice(&marks) {
        Some(place) => Ok(Err(first + place)),
        None => Ok(Ok(marks)),
    }
}

/// Rules 9 and 10: how many names each inode has, or the first of the rules that is broken.
pub(crate) fn check_tree(
    alloc: Global,
    inodes: &[Inode],
    names: &[Option<NameLine>],
) -> Result<Result<Vec<u8>, BadImage>, AllocError>
    requires some { 0 < length inodes.now }
    requires few { length inodes.now < 2 ^ 32 }
    requires children { HaveChildrenBelow (length inodes.now) names.now }
    ensures marks { IfOk result (λ read. IfOk read (λ marks. (v : Volume) → v.inodes ≡ inodes.now
        → v.names ≡ names.now → AreNameMarks v marks.items)) }
    ensures ok { IfOk result (λ read. OnOk read ((v : Volume) → v.inodes ≡ inodes.now
        → v.names ≡ names.now → v.geometry.inodes ≡ length inodes.now
        → v.geometry.names ≡ length names.now → HoldAll (tree_rules v))) }
    ensures bad { IfOk result (λ read. IfErr read (λ bad. (v : Volume) → v.inodes ≡ inodes.now
        → v.names ≡ names.now → v.geometry.inodes ≡ length inodes.now
        → v.geometry.names ≡ length names.now → IsFirstOf (tree_rules v) bad)) }
{
    let above = parents_above(alloc, names, inodes.len())?;
    if let Some(line) = bad_row(names, inodes, &above) {
        return Ok(Err(BadImage {
            rule: 9,
            place: line as u64,
        }));
    }
    let marks = count_names(alloc, names, inodes.len())?;
    if !are_directories_named(inodes, &marks) {
        return Ok(Err(BadImage {
            rule: 9,
            place: names.len() as u64,
        }));
    }
    match first_twice(&marks) {
        Some(ino) => Ok(Err(BadImage {
            rule: 10,
            place: u64::from(ino),
        })),
        None => Ok(Ok(marks)),
    }
}
