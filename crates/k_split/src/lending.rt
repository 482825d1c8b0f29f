//! Blocks of staging files, lent and taken back; blocks read.
ghost use Rattle.std.specs.Prelude.{◌≡◌, ◌+◌, ◌*◌, ◌/◌, ◌<◌, ℕ, true, false, length, slice_index, IfOk, OnErr};
ghost use Rattle.block_io.specs.image_model.Placed.{BlockIsHome};
ghost use Rattle.block_io.specs.pm_model.Cells.{cell, is_lent};
ghost use Rattle.block_io.specs.pm_model.Images.{words_of};
ghost use Rattle.block_io.specs.pm_model.Parts.{ComesBack, GoesOut};
ghost use Rattle.block_io.specs.pm_model.Words.{byte_of};
ghost use Rattle.k_split.specs.Loans.{MayLend};

use crate::state::KSplit;
use block_io::read_block;
use pm_lines::Loan;
use std::alloc::{AllocError, Global};

impl KSplit {
    /// Reads a block of the device: of each word what was stored last. No word of it is lent.
    pub fn read_block(&self, block: u32, out: &mut [u8; 4096])
        requires in_device { block < length self.now.cells / 512 }
        requires home { BlockIsHome block self.now.cells }
        ensures { (k : ℕ) → k < 4096 → slice_index out.new k ≡ byte_of (words_of self.now.cells) (4096 * block + k) }
    {
        read_block(&self.pm, block, out);
    }

    /// Lends block `block` of a staging file, counted from the start of the file. The file, inode 1 to
    /// 4, has it, and each of its words has one candidate. Nothing else changes.
    ///
    /// # Errors
    ///
    /// Out of memory, and then nothing is lent.
    pub fn lend(&mut self, alloc: Global, staging: u32, block: u32) -> Result<Loan, AllocError>
        requires on { self.old.lost ≡ false }
        requires may { (b : ℕ) × MayLend self.old.volume self.old.cells staging block b }
        ensures lent { (b : ℕ) → MayLend self.old.volume self.old.cells staging block b
            → IfOk result (λ loan. (loan.place ≡ b) × GoesOut 512 b self.old.cells self.new.cells loan.cells) }
        ensures same { self.new ≡ record self.old { cells = self.new.cells } }
        ensures size { length self.new.cells ≡ length self.old.cells }
        ensures err { OnErr result (self.new ≡ self.old) }
    {
        match self.tables.map(staging) {
            Some(map) => match map.lookup(block) {
                Some(disk) => self.pm.lend(alloc, disk),
                None => unreachable!(),
            },
            None => unreachable!(),
        }
    }

    /// Takes a block back that was lent. Its marks end.
    pub fn settle(&mut self, loan: Loan)
        requires out { (i : ℕ) → i / 512 ≡ loan.place → is_lent (cell self.old.cells i) ≡ true }
        ensures back { ComesBack 512 loan.place loan.cells self.old.cells self.new.cells }
        ensures home { BlockIsHome loan.place self.new.cells }
        ensures same { self.new ≡ record self.old { cells = self.new.cells } }
        ensures size { length self.new.cells ≡ length self.old.cells }
    {
        self.pm.settle(loan);
    }
}
