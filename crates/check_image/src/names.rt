// Rules 9 and 10: the names are a tree, and no node has two.
ghost use Rattle.std.specs.Prelude.{◌≡◌, ◌↔◌, ◌+◌, ◌<◌, ℕ, length, slice_index_or, true, None, IsTrue, IfOk, MatchOption};
ghost use Rattle.k_reading.specs.layout_model.Names.{Rows, is_entry, names_of, ends_at_root};
ghost use Rattle.k_reading.specs.image_model.Broken.{Holds, FailsFirst};
ghost use Rattle.k_reading.specs.image_model.Live.{is_directory};
ghost use Rattle.k_reading.specs.image_model.Rules.{IsPlaced, AreDirectoriesNamed};
ghost use Rattle.k_reading.specs.image_model.Volume.{Volume, inode};
ghost use Rattle.check_image.specs.Above.{HaveChildrenBelow, IsAbove, IsOnly, rows_rule};
ghost use Rattle.check_image.specs.Marks.{AreMarks};

use crate::blocks::mark;
use k_reading::{Inode, Kind, NameLine};
use std::alloc::{AllocError, Global};

// A directory is at most so many names below the root, that of its own name left out.
const STEPS: u32 = 15;

// The directory above each inode: the parent in the lowest line whose child it is.
pub(crate) fn parents_above(
    alloc: Global,
    names: &[Option<NameLine>],
    inodes: usize,
) -> Result<Vec<Option<u32>>, AllocError>
    requires { HaveChildrenBelow inodes names.now }
    ensures { IfOk result (λ above. IsAbove names.now above.items) }
{
    let mut above = vec![in alloc; None; inodes]?;
    let mut line = names.len();
    while line > 0 {
        line -= 1;
        if let Some(name) = &names[line] {
            above[name.child as usize] = Some(name.parent);
        }
    }
    Ok(above)
}

// Counts the names of each inode.
fn mark_children(marks: &mut [u8], names: &[Option<NameLine>])
    requires { HaveChildrenBelow (length marks.old) names.now }
    ensures { (x : ℕ → ℕ) → AreMarks marks.old x
        → AreMarks marks.new (λ ino. x ino + names_of names.now ino) }
{
    for row in names {
        if let Some(name) = row {
            mark(marks, name.child as usize);
        }
    }
}

/// How many names each inode has, one mark an inode: 0, 1, or 2 for more than one.
pub(crate) fn count_names(
    alloc: Global,
    names: &[Option<NameLine>],
    inodes: usize,
) -> Result<Vec<u8>, AllocError>
    requires { HaveChildrenBelow inodes names.now }
    ensures count { IfOk result (λ marks. length marks.items ≡ inodes) }
    ensures names { IfOk result (λ marks. AreMarks marks.items (names_of names.now)) }
{
    let mut marks = vec![in alloc; 0u8; inodes]?;
    mark_children(&mut marks, names);
    Ok(marks)
}

// Whether the row has the name's parent and bytes.
fn has_same_name(row: &Option<NameLine>, name: &NameLine) -> bool
    ensures { result ≡ is_entry name.now.parent name.now.name row.now }
{
    match row {
        Some(other) => other.parent == name.parent
            && other.name.bytes.as_slice() == name.name.bytes.as_slice(),
        None => false,
    }
}

// Whether no later line has the name's parent and bytes.
fn is_only(names: &[Option<NameLine>], line: usize, name: &NameLine) -> bool
    requires { line < length names.now }
    ensures { IsTrue result ↔ IsOnly names.now line name.now }
{
    for later in line + 1..names.len() {
        if has_same_name(&names[later], name) {
            return false;
        }
    }
    true
}

// The directory above the inode, in the table of these.
fn above_of(above: &[Option<u32>], ino: u32) -> Option<u32>
    ensures { result ≡ slice_index_or above.now ino None }
{
    let ino = ino as usize;
    if ino < above.len() { above[ino] } else { None }
}

// Whether going up from the inode one comes to the root within so many steps.
fn reaches_root(above: &[Option<u32>], from: u32) -> bool
    ensures { (rows : Rows) → IsAbove rows above.now → result ≡ ends_at_root rows 15 from }
{
    let mut ino = from;
    for _step in 0..STEPS {
        if ino == 0 {
            return true;
        }
        match above_of(above, ino) {
            Some(parent) => ino = parent,
            None => return false,
        }
    }
    ino == 0
}

// Whether the inode is a directory.
fn is_directory(inodes: &[Inode], ino: u32) -> bool
    ensures { (v : Volume) → v.inodes ≡ inodes.now
        → (IsTrue result ↔ (is_directory (inode v ino).kind ≡ true)) }
{
    match inodes.get(ino as usize) {
        Some(inode) => matches!(inode.kind, Kind::Directory),
        None => false,
    }
}

// Rule 9 at one name line.
fn is_placed(
    names: &[Option<NameLine>],
    inodes: &[Inode],
    above: &[Option<u32>],
    line: usize,
    name: &NameLine,
) -> bool
    requires in_table { line < length names.now }
    requires above { IsAbove names.now above.now }
    ensures { (v : Volume) → v.inodes ≡ inodes.now → v.names ≡ names.now
        → (IsTrue result ↔ IsPlaced v line name.now) }
{
    if !is_directory(inodes, name.parent) || !is_only(names, line, name) {
        return false;
    }
    reaches_root(above, name.parent)
}

/// Rule 9 at the name lines: the first that breaks it.
pub(crate) fn bad_row(
    names: &[Option<NameLine>],
    inodes: &[Inode],
    above: &[Option<u32>],
) -> Option<usize>
    requires { IsAbove names.now above.now }
    ensures { (v : Volume) → v.inodes ≡ inodes.now → v.names ≡ names.now
        → MatchOption result (Holds (rows_rule v)) (FailsFirst (rows_rule v)) }
{
    for (line, row) in names.iter().enumerate() {
        if let Some(name) = row
            && !is_placed(names, inodes, above, line, name)
        {
            return Some(line);
        }
    }
    None
}

/// Rule 9 behind the name lines: whether every directory but the root has a name, and the root has
/// none. The marks are those of the names.
pub(crate) fn are_directories_named(inodes: &[Inode], marks: &[u8]) -> bool
    requires some { 0 < length inodes.now }
    requires count { length marks.now ≡ length inodes.now }
    ensures { (v : Volume) → v.inodes ≡ inodes.now → AreMarks marks.now (names_of v.names)
        → (IsTrue result ↔ AreDirectoriesNamed v) }
{
    if marks[0] != 0 {
        return false;
    }
    for ino in 1..inodes.len() {
        if matches!(inodes[ino].kind, Kind::Directory) && marks[ino] == 0 {
            return false;
        }
    }
    true
}
