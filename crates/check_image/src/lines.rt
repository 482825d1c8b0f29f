// Rules 5 and 6: the inode lines and the name lines, as the journal makes them.
ghost use Rattle.std.specs.Prelude.{◌≡◌, ◌↔◌, ◌*◌, ◌<◌, ℕ, length, IsTrue, IfOk, IfErr, IfSome, IfNone, OnOk};
ghost use Rattle.k_journal.specs.layout_model.Journal.{journaled};
ghost use Rattle.k_reading.specs.image_model.Broken.{Holds, FailsFirst};
ghost use Rattle.k_reading.specs.image_model.Rules.{IsKindAt, IsNameSlot, HasInode};
ghost use Rattle.k_reading.specs.image_model.Volume.{Volume, volume, inode_at, name_at, row_of};
ghost use Rattle.check_image.specs.LineRules.{IsNode, inodes_rule, names_rule};
ghost use Rattle.k_reading.specs.k_names.Decoding.{slot_of};
ghost use Rattle.k_journal.specs.pm_model.Cells.{AllHome};
ghost use Rattle.k_journal.specs.pm_model.Images.{words_of};

use crate::view::view_line;
use k_journal::Geometry;
use k_reading::{Decoded, Inode, Kind, NameLine, decode_inode, decode_name};
use pm_lines::Pm;
use std::alloc::{AllocError, Global};

// Whether an inode of this kind may have the number.
fn is_kind_at(ino: u32, kind: Kind) -> bool
    ensures { IsTrue result ↔ IsKindAt ino kind }
{
    match kind {
        Kind::Free | Kind::File => ino >= 5,
        Kind::Directory => ino == 0 || ino >= 5,
        Kind::Staging => 1 <= ino && ino <= 4,
    }
}

// What stands in an inode line of the view.
fn inode_at(pm: &Pm, geometry: &Geometry, ino: u32) -> Option<Inode>
    requires size { length pm.now ≡ 512 * geometry.now.blocks }
    requires home { AllHome pm.now }
    requires in_image { ino < geometry.now.inodes }
    ensures { result ≡ inode_at (journaled (words_of pm.now)) ino }
{
    prove!(geometry.blocks >= 64);
    decode_inode(&view_line(pm, geometry.inode_line(ino)))
}

// Rule 5 at one inode: the inode of the line, where there is one and its kind may stand there.
fn good_inode(pm: &Pm, geometry: &Geometry, ino: u32) -> Option<Inode>
    requires size { length pm.now ≡ 512 * geometry.now.blocks }
    requires home { AllHome pm.now }
    requires in_image { ino < geometry.now.inodes }
    ensures good { IfSome result (λ inode. (inode_at (journaled (words_of pm.now)) ino ≡ Some inode)
        × HasInode (journaled (words_of pm.now)) ino) }
    ensures bad { IfNone result (¬ HasInode (journaled (words_of pm.now)) ino) }
{
    let inode = inode_at(pm, geometry, ino)?;
    if is_kind_at(ino, inode.kind) {
        Some(inode)
    } else {
        None
    }
}

/// Rule 5: the inodes, line by line, or the first that is none.
pub(crate) fn read_inodes(
    alloc: Global,
    pm: &Pm,
    geometry: &Geometry,
) -> Result<Result<Vec<Inode>, u32>, AllocError>
    requires size { length pm.now ≡ 512 * geometry.now.blocks }
    requires home { AllHome pm.now }
    ensures inodes { IfOk result (λ read. IfOk read (λ inodes.
        inodes.items ≡ (volume geometry.now (journaled (words_of pm.now))).inodes)) }
    ensures ok { IfOk result (λ read. OnOk read
        (Holds (inodes_rule geometry.now (journaled (words_of pm.now))))) }
    ensures bad { IfOk result (λ read. IfErr read
        (FailsFirst (inodes_rule geometry.now (journaled (words_of pm.now))))) }
{
    let mut inodes = Vec::with_capacity(alloc, geometry.inodes as usize)?;
    for ino in 0..geometry.inodes {
        match good_inode(pm, geometry, ino) {
            Some(inode) => inodes.push(inode)?,
            None => return Ok(Err(ino)),
        }
    }
    Ok(Ok(inodes))
}

// Whether the inode is a directory or a file.
fn is_node(inodes: &[Inode], ino: u32) -> bool
    ensures { (v : Volume) → v.inodes ≡ inodes.now → (IsTrue result ↔ IsNode v ino) }
{
    match inodes.get(ino as usize) {
        Some(inode) => matches!(inode.kind, Kind::Directory | Kind::File),
        None => false,
    }
}

// What stands in a name line of the view.
fn slot_at(alloc: Global, pm: &Pm, geometry: &Geometry, line: u32) -> Result<Decoded, AllocError>
    requires size { length pm.now ≡ 512 * geometry.now.blocks }
    requires home { AllHome pm.now }
    requires in_image { line < geometry.now.names }
    ensures { IfOk result (λ d.
        slot_of d ≡ name_at geometry.now (journaled (words_of pm.now)) line) }
{
    prove!(geometry.blocks >= 64);
    decode_name(alloc, &view_line(pm, geometry.name_line(line)))
}

// Rule 6 at one name line: its row, free or a name, where it is one of a good child and parent.
// None where it is not.
fn good_row(inodes: &[Inode], slot: Decoded) -> Option<Option<NameLine>>
    ensures good { (v : Volume) → v.inodes ≡ inodes.now → v.geometry.inodes ≡ length inodes.now
        → IfSome result (λ row. (row ≡ row_of (slot_of slot)) × IsNameSlot v (slot_of slot)) }
    ensures bad { (v : Volume) → v.inodes ≡ inodes.now → v.geometry.inodes ≡ length inodes.now
        → IfNone result (¬ IsNameSlot v (slot_of slot)) }
{
    match slot {
        Decoded::Free => Some(None),
        Decoded::Line(name) => {
            if is_node(inodes, name.child) && (name.parent as usize) < inodes.len() {
                Some(Some(name))
            } else {
                None
            }
        }
        Decoded::Bad => None,
    }
}

/// Rule 6: the names, line by line, or the first that is none. The inodes are those of the view.
pub(crate) fn read_names(
    alloc: Global,
    pm: &Pm,
    geometry: &Geometry,
    inodes: &[Inode],
) -> Result<Result<Vec<Option<NameLine>>, u32>, AllocError>
    requires size { length pm.now ≡ 512 * geometry.now.blocks }
    requires home { AllHome pm.now }
    requires inodes { inodes.now ≡ (volume geometry.now (journaled (words_of pm.now))).inodes }
    ensures names { IfOk result (λ read. IfOk read (λ names.
        names.items ≡ (volume geometry.now (journaled (words_of pm.now))).names)) }
    ensures ok { IfOk result (λ read. OnOk read (let j = journaled (words_of pm.now) in
        Holds (names_rule geometry.now (volume geometry.now j) j))) }
    ensures bad { IfOk result (λ read. IfErr read (let j = journaled (words_of pm.now) in
        FailsFirst (names_rule geometry.now (volume geometry.now j) j))) }
{
    let mut names = Vec::with_capacity(alloc, geometry.names as usize)?;
    for line in 0..geometry.names {
        match good_row(inodes, slot_at(alloc, pm, geometry, line)?) {
            Some(row) => names.push(row)?,
            None => return Ok(Err(line)),
        }
    }
    Ok(Ok(names))
}
