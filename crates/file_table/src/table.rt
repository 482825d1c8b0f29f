//! The table of what is kept of files.
ghost use Rattle.std.specs.Prelude.{◌≡◌, ◌≢◌, ◌≤◌, ◌<◌, ◌+◌, ◌^◌, ℕ, [], ◌∷◌, ◌++◌, length, sum_by, IfOk, OnOk};
ghost use Rattle.block_counts.specs.Counts.{held_by};
ghost use Rattle.layout_model.specs.block_counts.declared.TheConstants.{LONGEST_FILE};
ghost use Rattle.file_table.specs.Files.{runs_in, size_in, spare_in, AreEmpty, ChangesFile};

use block_counts::held_by;
use file_overlay::{Overlay, Run};
use std::alloc::{AllocError, Global};
use std::marker::Model;

/// Of each inode line the runs that are staged of its file and the size of the file by them, and the
/// blocks that all these sizes hold.
#[derive(Drop)]
pub struct FileTable {
    overlays: Vec<Overlay>,
    sizes: Vec<u64>,
    held: u64,
}

impl Model for FileTable {
    ghost use Rattle.file_table.specs.Files.{Files, IsFileTable};

    ghost Value = { Files };

    ghost view = { λ t. record { overlays = t.overlays.items; sizes = t.sizes.items } };

    ghost invariant = { λ t. IsFileTable t.overlays.items t.sizes.items t.held };
}

impl FileTable {
    /// A table of `count` lines of which nothing is kept.
    pub fn new(alloc: Global, count: u32) -> Result<FileTable, AllocError>
        ensures { IfOk result (AreEmpty count) }
    {
        let mut overlays = Vec::new(alloc);
        let mut sizes = Vec::new(alloc);
        for _line in 0..count {
            overlays.push(Overlay::new(alloc))?;
            sizes.push(0)?;
        }
        Ok(FileTable {
            overlays,
            sizes,
            held: 0,
        })
    }

    /// The size of a file by what is staged of it, at most 16,777,216 bytes; 0 of a line without a file.
    pub fn size(&self, ino: u32) -> u64
        requires { ino < length self.now.sizes }
        ensures size { result ≡ size_in self.now ino }
        ensures small { result ≤ LONGEST_FILE }
    {
        self.sizes[ino as usize]
    }

    /// How many blocks all files hold, with their chains.
    pub fn held(&self) -> u64
        ensures { result ≡ sum_by held_by self.now.sizes }
    {
        self.held
    }

    /// What is staged of a file.
    pub fn overlay(&self, ino: u32) -> &Overlay
        requires { ino < length self.now.sizes }
        ensures { result.now.runs ≡ runs_in self.now ino }
    {
        &self.overlays[ino as usize]
    }

    /// Gives a file another size. What is staged of it stays, and its room.
    pub fn resize(&mut self, ino: u32, size: u64)
        requires below { ino < length self.old.sizes }
        requires small { size ≤ LONGEST_FILE }
        ensures file { ChangesFile ino (runs_in self.old ino) size self.old self.new }
        ensures spare { spare_in self.new ino ≡ spare_in self.old ino }
    {
        let place = ino as usize;
        let held = self.held - held_by(self.sizes[place]);
        self.held = held + held_by(size);
        self.sizes[place] = size;
    }

    /// Makes room for `lay` in the line of a file; that of other lines stays. An error leaves what is kept,
    /// too.
    pub fn reserve(&mut self, ino: u32) -> Result<(), AllocError>
        requires { ino < length self.old.sizes }
        ensures ok { OnOk result (3 ≤ spare_in self.new ino) }
        ensures spares { (other : ℕ) → other ≢ ino → spare_in self.new other ≡ spare_in self.old other }
        ensures runs { (other : ℕ) → runs_in self.new other ≡ runs_in self.old other }
        ensures sizes { self.new.sizes ≡ self.old.sizes }
    {
        self.overlays[ino as usize].reserve()
    }

    /// Lays a run over those of a file, which has another size then. The run's ends, in the file and in the
    /// staging file, fit 32 bits. It takes no memory.
    pub fn lay(&mut self, ino: u32, run: Run, size: u64)
        requires below { ino < length self.old.sizes }
        requires room { 3 ≤ spare_in self.old ino }
        requires in_file { run.file_block + run.count < 2 ^ 32 }
        requires in_staging { run.staging_block + run.count < 2 ^ 32 }
        requires small { size ≤ LONGEST_FILE }
        ensures { ChangesFile ino (runs_in self.old ino ++ run ∷ []) size self.old self.new }
    {
        self.overlays[ino as usize].lay(run);
        self.resize(ino, size);
    }

    /// Takes all runs of a file away, which has this size then. Its room stays. It takes no memory.
    pub fn clear(&mut self, ino: u32, size: u64)
        requires below { ino < length self.old.sizes }
        requires small { size ≤ LONGEST_FILE }
        ensures file { ChangesFile ino [] size self.old self.new }
        ensures spare { spare_in self.old ino ≤ spare_in self.new ino }
    {
        self.overlays[ino as usize].clear();
        self.resize(ino, size);
    }
}
