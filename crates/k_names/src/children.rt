//! The names of a directory, in order.

ghost use Rattle.std.specs.Prelude.{◌≡◌, ◌<◌, ◌≤◌, ◌^◌, ◌++◌, ℕ, List, length, IfOk, OnOk, IsSorted, IsPermutation, count_by};
ghost use Rattle.layout_model.specs.Fields.{is_same};
ghost use Rattle.std.specs.Cmp.Lexicographic.{slice_cmp};
ghost use Rattle.std.specs.Ordering.{nat_cmp};
ghost use Rattle.layout_model.specs.Tables.{IsKeyed, name_below, names_below};
ghost use Rattle.k_names.specs.Indexes.{parent_word_of, IsIndex};

use crate::index::LineIndex;
use crate::line::NameLine;
use posix_types::Name;
use std::alloc::{AllocError, Global};

// Puts a line's name behind the others, if it is below the parent.
fn push_name(names: &mut Vec<Name>, row: &Option<NameLine>, parent: u32) -> Result<(), AllocError>
    ensures { OnOk result (names.new.items ≡ names.old.items ++ name_below parent row.now) }
{
    if let Some(line) = row
        && line.parent == parent
    {
        names.push(line.name.clone()?)?;
    }
    Ok(())
}

// The names below the parent, in the order of the lines.
fn children(
    alloc: Global,
    rows: &[Option<NameLine>],
    by_parent: &LineIndex,
    parent: u32,
) -> Result<Vec<Name>, AllocError>
    requires size { length rows.now < 2 ^ 32 }
    requires index { IsIndex parent_word_of rows.now by_parent.now }
    ensures { IfOk result (λ names. names.items ≡ names_below rows.now parent) }
{
    let mut names = Vec::new(alloc);
    let mut from = 0;
    while let Some(line) = by_parent.next(parent, from) {
        push_name(&mut names, &rows[line as usize], parent)?;
        from = line + 1;
    }
    Ok(names)
}

// The names below the parent, in the order of their bytes.
pub(crate) fn sorted_children(
    alloc: Global,
    rows: &[Option<NameLine>],
    by_parent: &LineIndex,
    parent: u32,
) -> Result<Vec<Name>, AllocError>
    requires keyed { IsKeyed rows.now }
    requires size { length rows.now < 2 ^ 32 }
    requires index { IsIndex parent_word_of rows.now by_parent.now }
    ensures sorted { IfOk result (λ names. IsSorted (slice_cmp nat_cmp) names.items) }
    ensures names { IfOk result (λ names. IsPermutation (names_below rows.now parent) names.items) }
    ensures once { IfOk result (λ names. (name : List ℕ)
        → count_by (λ x. is_same x name) names.items ≤ 1) }
{
    let mut names = children(alloc, rows, by_parent, parent)?;
    names.sort_unstable_by(|a, b| a.bytes.cmp(&b.bytes));
    Ok(names)
}
