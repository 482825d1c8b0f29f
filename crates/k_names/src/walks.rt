//! Walks up and down the names of a table.

ghost use Rattle.std.specs.Prelude.{◌≡◌, ◌<◌, ◌≤◌, ◌^◌, ◌↔◌, length, IsTrue};
ghost use Rattle.layout_model.specs.Names.{IsBelow};
ghost use Rattle.layout_model.specs.Tables.{IsKeyed, IsAcyclic};
ghost use Rattle.k_names.specs.Heights.{HasHeightWithin, child_below};
ghost use Rattle.k_names.specs.Indexes.{child_word_of, IsIndex};

use crate::index::LineIndex;
use crate::line::NameLine;
use crate::rows::parent_of;

// Whether going up from the inode, itself included, comes to the ancestor.
pub(crate) fn is_below(
    rows: &[Option<NameLine>],
    by_child: &LineIndex,
    ino: u32,
    ancestor: u32,
) -> bool
    requires keyed { IsKeyed rows.now }
    requires acyclic { IsAcyclic rows.now }
    requires size { length rows.now < 2 ^ 32 }
    requires index { IsIndex child_word_of rows.now by_child.now }
    ensures { IsTrue result ↔ IsBelow rows.now ino ancestor }
{
    let mut at = ino;
    // no way up is longer than the table
    for _step in 0..rows.len() {
        if at == ancestor {
            return true;
        }
        match parent_of(rows, by_child, at) {
            Some(parent) => at = parent,
            None => return false,
        }
    }
    at == ancestor
}

// The child that the line names below the parent, if it does.
fn child_below(row: &Option<NameLine>, parent: u32) -> Option<u32>
    ensures { result ≡ child_below parent row.now }
{
    match row {
        Some(line) if line.parent == parent => Some(line.child),
        _ => None,
    }
}

// How many names the longest path below the inode has, among those of at most `most` names.
pub(crate) fn height_within(rows: &[Option<NameLine>], ino: u32, most: u32) -> u32
    requires { IsKeyed rows.now }
    ensures height { HasHeightWithin rows.now most ino result }
    ensures bound { result ≤ most }
{
    if most == 0 {
        return 0;
    }
    let mut height: u32 = 0;
    for row in rows {
        if let Some(child) = child_below(row, ino) {
            height = height.max(1 + height_within(rows, child, most - 1));
        }
    }
    height
}
