//! The log's lines, taken out for a lap and put back.
ghost use Rattle.std.specs.Prelude.{◌≡◌, ◌≤◌, ℕ, true, false, length, IfOk, OnErr};
ghost use Rattle.block_io.specs.pm_model.Cells.{cell, is_lent, is_single};
ghost use Rattle.block_io.specs.layout_model.Places.{log_line};
ghost use Rattle.block_io.specs.Lines.{LinesComeBack, LinesGoOut};
ghost use Rattle.k_split.specs.Laps.{HasSingleLog, IsLogWord};
ghost use Rattle.k_split.specs.LogLines.{AreLogLines};

use crate::state::KSplit;
use block_io::{put_lines, take_lines};
use pm_lines::Line;
use std::alloc::{AllocError, Global};

impl KSplit {
    /// Takes the log's lines out, by rising slot, so that entries are stored into them outside every
    /// lock. Each of their words has one candidate. Nothing else changes.
    ///
    /// # Errors
    ///
    /// Out of memory, and then no line is out.
    pub fn take_log(&mut self, alloc: Global) -> Result<Vec<Line>, AllocError>
        requires on { self.old.lost ≡ false }
        requires single { HasSingleLog self.old }
        ensures lines { IfOk result (λ lines. AreLogLines self.old.volume lines.items) }
        ensures out { IfOk result (λ lines. LinesGoOut (log_line self.old.volume.geometry 0)
            self.old.cells self.new.cells lines.items) }
        ensures same { self.new ≡ record self.old { cells = self.new.cells } }
        ensures size { length self.new.cells ≡ length self.old.cells }
        ensures err { OnErr result (self.new ≡ self.old) }
    {
        let geometry = self.tables.geometry();
        let count = geometry.log;
        let first = geometry.log_line(0);
        let room = Vec::with_capacity(alloc, count as usize)?;
        Ok(take_lines(&mut self.pm, first, u64::from(count), room))
    }

    /// Puts the log's lines back, by rising slot. All of them are out. Their marks end, and nothing
    /// else changes.
    pub fn put_log(&mut self, lines: Vec<Line>)
        requires lines { AreLogLines self.old.volume lines.items }
        requires out { (i : ℕ) → IsLogWord self.old.volume i
            → is_lent (cell self.old.cells i) ≡ true }
        ensures back { LinesComeBack (log_line self.old.volume.geometry 0) lines.items
            self.old.cells self.new.cells }
        ensures home { (i : ℕ) → IsLogWord self.old.volume i
            → is_lent (cell self.new.cells i) ≡ false }
        ensures same { self.new ≡ record self.old { cells = self.new.cells } }
        ensures size { length self.new.cells ≡ length self.old.cells }
    {
        let first = self.tables.geometry().log_line(0);
        put_lines(&mut self.pm, first, lines);
    }
}
