//! The map itself.
ghost use Rattle.std.specs.Prelude.{◌≡◌, ℕ, ◌+◌, ◌-◌, ◌<◌, ◌≤◌, ◌^◌, ◌⊎◌, [], not, length, nat_le, nat_lt, IsTrue, IsSome, IfOk, OnOk, OnErr};
ghost use Rattle.std.specs.Option.{SomeIff};
ghost use Rattle.extent_model.specs.Extents.{is_within, holds, holds_disk, disk_at, covers, block_count, IsCanonical};
ghost use Rattle.extent_model.specs.Maps.{IsPart, Replaces};

use crate::pieces::{between, disk_block, file_end, is_canonical, outside, with_run};
use extent_model::{Extent, FILE_BLOCKS};
use std::alloc::{AllocError, Global};
use std::marker::Model;

/// A finite map from the blocks of a file to blocks of the disk. Contracts see it as its list of
/// extents, the one spelling of the map.
#[derive(Debug, Drop)]
pub struct ExtentMap {
    extents: Vec<Extent>,
}

impl Model for ExtentMap {
    ghost use Rattle.std.specs.Prelude.{List};
    ghost use Rattle.extent_model.specs.declared.extent_words.Extent.{Extent};
    ghost use Rattle.extent_model.specs.Extents.{IsCanonical};

    ghost Value = { List Extent };

    ghost view = { λ m. m.extents.items };

    ghost invariant = { λ m. IsCanonical m.extents.items };
}

impl ExtentMap {
    /// The map in which no file block has a disk block. It takes no memory before it grows.
    pub fn new(alloc: Global) -> ExtentMap
        ensures { result ≡ [] }
    {
        ExtentMap {
            extents: Vec::new(alloc),
        }
    }

    /// The map of which these extents are the one spelling, or None where they are not that of any
    /// map.
    pub fn from_extents(alloc: Global, extents: &[Extent]) -> Result<Option<ExtentMap>, AllocError>
        ensures made { IfOk result (λ map. SomeIff map (IsCanonical extents.now) extents.now) }
        ensures refused { ¬ IsCanonical extents.now → result ≡ Ok None }
    {
        if !is_canonical(extents) {
            return Ok(None);
        }
        Ok(Some(ExtentMap {
            extents: Vec::from_slice(alloc, extents)?,
        }))
    }

    /// The same map once more.
    pub fn copied(&self, alloc: Global) -> Result<ExtentMap, AllocError>
        ensures copy { IfOk result (λ copy. copy ≡ self.now) }
        ensures canonical { IsCanonical self.now }
    {
        Ok(ExtentMap {
            extents: Vec::from_slice(alloc, &self.extents)?,
        })
    }

    /// The disk block of a file block. It halves the list of extents until one is left.
    pub fn lookup(&self, block: u32) -> Option<u32>
        ensures disk { result ≡ disk_at self.now block }
        ensures canonical { IsCanonical self.now }
    {
        disk_block(&self.extents, block)
    }

    /// The extents, the one spelling of the map.
    pub fn extents(&self) -> &[Extent]
        ensures all { result.now ≡ self.now }
        ensures few { length self.now ≤ FILE_BLOCKS }
        ensures canonical { IsCanonical self.now }
    {
        &self.extents
    }

    /// One past the last file block that has a disk block; 0 where none has.
    pub fn end(&self) -> u32
        ensures past { (b : ℕ) → result ≤ b → disk_at self.now b ≡ None }
        ensures last { 0 < result → IsSome (disk_at self.now (result - 1)) }
        ensures canonical { IsCanonical self.now }
    {
        file_end(&self.extents)
    }

    /// Gives the file blocks of the run its disk blocks, and answers what they had before. The run
    /// ends by file block `FILE_BLOCKS`, and its end on the disk fits 32 bits; a run of no blocks
    /// changes nothing. An error leaves the map as it was.
    pub fn replace_range(&mut self, run: Extent) -> Result<Vec<Extent>, AllocError>
        requires in_file { run.file + run.count ≤ FILE_BLOCKS }
        requires on_disk { run.disk + run.count < 2 ^ 32 }
        ensures map { OnOk result (Replaces run self.old self.new) }
        ensures displaced { IfOk result (λ displaced. IsPart (holds run) self.old displaced.items) }
        ensures count { IfOk result (λ displaced.
            block_count self.new + block_count displaced.items ≡ block_count self.old + run.count) }
        ensures disk { OnOk result ((d : ℕ) → IsTrue (covers self.new d) →
            IsTrue (covers self.old d) ⊎ IsTrue (holds_disk run d)) }
        ensures few { length self.new ≤ length self.old + 2 }
        ensures canonical { IsCanonical self.new }
        ensures err { OnErr result (self.new ≡ self.old) }
    {
        let alloc = *self.extents.allocator();
        let displaced = between(alloc, &self.extents, run.file, run.file + run.count)?;
        self.extents = with_run(alloc, &self.extents, run)?;
        Ok(displaced)
    }

    /// Takes `count` file blocks from `file` on, which end by `FILE_BLOCKS`, out of the map, and
    /// answers what they had. An error leaves the map as it was.
    pub fn clear_range(&mut self, file: u32, count: u32) -> Result<Vec<Extent>, AllocError>
        requires in_file { file + count ≤ FILE_BLOCKS }
        ensures map { OnOk result (IsPart (λ b. not (is_within file count b)) self.old self.new) }
        ensures displaced { IfOk result (λ displaced.
            IsPart (is_within file count) self.old displaced.items) }
        ensures count { IfOk result (λ displaced.
            block_count self.new + block_count displaced.items ≡ block_count self.old) }
        ensures few { length self.new ≤ length self.old + 1 }
        ensures canonical { IsCanonical self.new }
        ensures err { OnErr result (self.new ≡ self.old) }
    {
        let alloc = *self.extents.allocator();
        let displaced = between(alloc, &self.extents, file, file + count)?;
        self.extents = outside(alloc, &self.extents, file, file + count)?;
        Ok(displaced)
    }

    /// Takes all file blocks from `from` on out of the map, and answers what they had. An error
    /// leaves the map as it was.
    pub fn cut(&mut self, from: u32) -> Result<Vec<Extent>, AllocError>
        ensures map { OnOk result (IsPart (λ b. nat_lt b from) self.old self.new) }
        ensures displaced { IfOk result (λ displaced.
            IsPart (λ b. nat_le from b) self.old displaced.items) }
        ensures count { IfOk result (λ displaced.
            block_count self.new + block_count displaced.items ≡ block_count self.old) }
        ensures few { length self.new ≤ length self.old }
        ensures canonical { IsCanonical self.new }
        ensures err { OnErr result (self.new ≡ self.old) }
    {
        let alloc = *self.extents.allocator();
        let displaced = between(alloc, &self.extents, from, FILE_BLOCKS)?;
        self.extents = between(alloc, &self.extents, 0, from)?;
        Ok(displaced)
    }
}
