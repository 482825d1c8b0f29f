//! The table of the names of an image.
ghost use Rattle.std.specs.Prelude.{◌≡◌, ◌<◌, ◌≤◌, ◌↔◌, ℕ, List, length, true, false, replicate, slice_set, Some, None, IsTrue, IfSome, IfNone, IfOk, OnErr, OnOk, IsSorted, IsPermutation, count_by};
ghost use Rattle.layout_model.specs.Fields.{is_same};
ghost use Rattle.std.specs.Cmp.Lexicographic.{slice_cmp};
ghost use Rattle.std.specs.Ordering.{nat_cmp};
ghost use Rattle.layout_model.specs.Names.{row, is_entry, is_free_row, find_name, free_line, IsBelow, HasHeight};
ghost use Rattle.layout_model.specs.Tables.{IsKeyed, IsAcyclic, names_below};
ghost use Rattle.k_names.specs.Finding.{IsRow};

use crate::children::sorted_children;
use crate::index::LineIndex;
use crate::line::NameLine;
use crate::{rows, walks};
use posix_types::Name;
use std::alloc::{AllocError, Global};
use std::marker::Model;

/// The names of an image, line by line: a finite map from parent and name to line and child.
/// Contracts see a list with one row a line, none where the line is free.
#[derive(Debug, Drop)]
pub struct NameTable {
    lines: Vec<Option<NameLine>>,
    // The lines by their names, by the directories that they are in, and by what they stand for.
    by_name: LineIndex,
    by_parent: LineIndex,
    by_child: LineIndex,
}

impl Model for NameTable {
    ghost use Rattle.std.specs.Prelude.{◌<◌, ◌^◌, length};
    ghost use Rattle.layout_model.specs.Names.{Rows};
    ghost use Rattle.layout_model.specs.Tables.{IsKeyed};
    ghost use Rattle.k_names.specs.Indexes.{AreIndexes};

    ghost Value = { Rows };

    ghost view = { λ table. table.lines.items };

    ghost invariant = { λ table.
        IsKeyed table.lines.items × (length table.lines.items < 2 ^ 32)
        × AreIndexes table.lines.items table.by_name table.by_parent table.by_child };
}

impl NameTable {
    /// A table of so many lines, all of them free.
    pub fn new(alloc: Global, lines: u32) -> Result<NameTable, AllocError>
        ensures { IfOk result (λ table. table ≡ replicate lines None) }
    {
        Ok(NameTable {
            lines: rows::blank_lines(alloc, lines)?,
            by_name: LineIndex::new(alloc, lines)?,
            by_parent: LineIndex::new(alloc, lines)?,
            by_child: LineIndex::new(alloc, lines)?,
        })
    }

    /// The line of the parent's name, and its child; None where no line has that parent and name.
    pub fn find(&self, parent: u32, name: &Name) -> Option<(u32, u32)>
        ensures found { result ≡ find_name self.now parent name.now }
        ensures within { IfSome result (λ found. found.0 < length self.now) }
        ensures row { IfSome result (λ found. IsRow self.now parent name.now found.0 found.1) }
        ensures none { IfNone result ((k : ℕ) → is_entry parent name.now (row self.now k) ≡ false) }
        ensures keyed { IsKeyed self.now }
    {
        rows::find_name(&self.lines, &self.by_name, parent, &name.bytes)
    }

    /// The names below the parent, each once, in the order of their bytes.
    pub fn children(&self, alloc: Global, parent: u32) -> Result<Vec<Name>, AllocError>
        ensures sorted { IfOk result (λ names. IsSorted (slice_cmp nat_cmp) names.items) }
        ensures names { IfOk result (λ names.
            IsPermutation (names_below self.now parent) names.items) }
        ensures once { IfOk result (λ names. (name : List ℕ)
            → count_by (λ x. is_same x name) names.items ≤ 1) }
    {
        sorted_children(alloc, &self.lines, &self.by_parent, parent)
    }

    /// The lowest free line, None where none is free.
    pub fn free_line(&self) -> Option<u32>
        ensures lowest { result ≡ free_line self.now }
        ensures within { IfSome result (λ line. line < length self.now) }
    {
        rows::free_line(&self.lines, &self.by_child)
    }

    /// How many lines are free.
    pub fn free_lines(&self) -> u32
        ensures { result ≡ count_by is_free_row self.now }
    {
        rows::free_count(&self.lines)
    }

    // Gives a line another row. It takes no memory.
    fn put(&mut self, line: u32, row: Option<NameLine>)
        requires in_table { line < length self.old }
        requires keyed { IsKeyed self.old → IsKeyed (slice_set self.old line row) }
        ensures put { self.new ≡ slice_set self.old line row }
        ensures was_keyed { IsKeyed self.old }
    {
        let was = rows::words_of(&self.lines[line as usize]);
        let now = rows::words_of(&row);
        self.by_name.change(line, was.name, now.name);
        self.by_parent.change(line, was.parent, now.parent);
        self.by_child.change(line, was.child, now.child);
        self.lines[line as usize] = row;
    }

    /// Gives a line of the table this name, in place of the one that it has. No other line may have
    /// the name's parent and bytes. An error, for want of memory, leaves the table as it was.
    pub fn set(&mut self, line: u32, value: NameLine) -> Result<(), AllocError>
        requires in_table { line < length self.old }
        requires new { (k : ℕ) → is_entry value.parent value.name (row self.old k) ≡ true
            → k ≡ line }
        ensures set { OnOk result (self.new ≡ slice_set self.old line (Some value)) }
        ensures same { OnErr result (self.new ≡ self.old) }
    {
        self.put(line, Some(value));
        Ok(())
    }

    /// Gives a line of the table the name that another line has, which is freed. It takes no memory.
    pub fn set_over(&mut self, line: u32, value: NameLine, target: u32)
        requires in_table { line < length self.old }
        requires other { target < length self.old }
        requires has_it { is_entry value.parent value.name (row self.old target) ≡ true }
        ensures { self.new ≡ slice_set (slice_set self.old target None) line (Some value) }
    {
        self.put(target, None);
        self.put(line, Some(value));
    }

    /// Frees a line of the table. It takes no memory.
    pub fn clear(&mut self, line: u32)
        requires { line < length self.old }
        ensures { self.new ≡ slice_set self.old line None }
    {
        self.put(line, None);
    }

    /// Whether going up from the inode, itself included, comes to the ancestor. No path of names
    /// may lead back to where it began.
    pub fn below(&self, ino: u32, ancestor: u32) -> bool
        requires { IsAcyclic self.now }
        ensures { IsTrue result ↔ IsBelow self.now ino ancestor }
    {
        walks::is_below(&self.lines, &self.by_child, ino, ancestor)
    }

    /// How many names the longest path below the inode has, 0 where nothing is below it. No path of
    /// names may lead back to where it began.
    pub fn height(&self, ino: u32) -> u32
        requires { IsAcyclic self.now }
        ensures { HasHeight self.now ino result }
    {
        walks::height_within(&self.lines, ino, self.lines.len() as u32)
    }
}
