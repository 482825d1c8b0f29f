//! The runs that were laid.
ghost use Rattle.std.specs.Prelude.{◌≡◌, ◌+◌, ◌<◌, ◌≤◌, ◌^◌, [], ◌∷◌, ◌++◌, All, OnOk};
ghost use Rattle.file_overlay.specs.Runs.{staged_at, FitsRun};

use crate::pieces::{begun, lay_over};
use crate::runs::Run;
use std::alloc::{AllocError, Global};
use std::marker::Model;
use std::mem;

/// How many places `lay` may take.
const PLACES: usize = 3;

/// The staged runs of a file, in the order in which they were laid, and room for more.
#[derive(Drop)]
pub struct Overlay {
    runs: Vec<Run>,
    // What the runs leave of each other, in the order of the file.
    pieces: Vec<Run>,
    // Where the pieces are made with a run over them.
    room: Vec<Run>,
}

impl Model for Overlay {
    ghost use Rattle.std.specs.Prelude.{◌-◌, All, min, vec_capacity, vec_len};
    ghost use Rattle.file_overlay.specs.Pieces.{ArePieces};
    ghost use Rattle.file_overlay.specs.Runs.{FitsRun, Overlaid};

    ghost Value = { Overlaid };

    ghost view = { λ o. record {
      runs = o.runs.items;
      spare = min (vec_capacity o.runs - vec_len o.runs)
          (min (vec_capacity o.pieces) (vec_capacity o.room) - vec_len o.pieces);
    } };

    ghost invariant = { λ o.
        All FitsRun o.runs.items × ArePieces o.runs.items o.pieces.items };
}

impl Overlay {
    /// No run. It takes no memory before `reserve`.
    pub fn new(alloc: Global) -> Overlay
        ensures { result.runs ≡ [] }
    {
        Overlay {
            runs: Vec::new(alloc),
            pieces: Vec::new(alloc),
            room: Vec::new(alloc),
        }
    }

    /// Makes room for `lay`: afterwards spare is at least 3. An error leaves what is laid, too.
    pub fn reserve(&mut self) -> Result<(), AllocError>
        ensures ok { OnOk result (3 ≤ self.new.spare) }
        ensures runs { self.new.runs ≡ self.old.runs }
        ensures spare { self.old.spare ≤ self.new.spare }
    {
        self.runs.reserve(PLACES)?;
        self.pieces.reserve(PLACES)?;
        self.room.clear();
        self.room.reserve(self.pieces.len() + PLACES)
    }

    /// Lays a run over those that are there. Its ends, in the file and in the staging file, fit 32
    /// bits. It uses at most 3 of what is spare, and takes no memory.
    pub fn lay(&mut self, run: Run)
        requires room { 3 ≤ self.old.spare }
        requires in_file { run.file_block + run.count < 2 ^ 32 }
        requires in_staging { run.staging_block + run.count < 2 ^ 32 }
        ensures runs { self.new.runs ≡ self.old.runs ++ run ∷ [] }
        ensures spare { self.old.spare ≤ self.new.spare + 3 }
    {
        lay_over(&self.pieces, &mut self.room, run);
        mem::swap(&mut self.pieces, &mut self.room);
        self.runs.push_reserved(run);
    }

    /// The staging file and the block in it of the last run laid over a file block, if there is one.
    pub fn find(&self, block: u32) -> Option<(u32, u32)>
        ensures { result ≡ staged_at self.now.runs block }
    {
        let begun = begun(&self.pieces, u64::from(block) + 1);
        if begun == 0 {
            return None;
        }
        let piece = self.pieces[begun - 1];
        if piece.has(block) {
            Some(piece.place_of(block))
        } else {
            None
        }
    }

    /// The runs, in the order in which they were laid.
    pub fn runs(&self) -> &[Run]
        ensures all { result.now ≡ self.now.runs }
        ensures fit { All FitsRun self.now.runs }
    {
        &self.runs
    }

    /// Takes all runs away. The room stays.
    pub fn clear(&mut self)
        ensures runs { self.new.runs ≡ [] }
        ensures spare { self.old.spare ≤ self.new.spare }
    {
        self.runs.clear();
        self.pieces.clear();
    }
}
