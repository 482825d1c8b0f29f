//! A line that was taken out of a device, with its cells.
ghost use Rattle.std.specs.Prelude.{◌≡◌, ◌<◌, ◌/◌, true};
ghost use Rattle.pm_model.specs.Cells.{cell, is_single, newest};
ghost use Rattle.pm_model.specs.Powers.{is_on, stepped, Steps};
ghost use Rattle.pm_lines.specs.Effects.{StoresWord, FlushesLine, Fences};
ghost use Rattle.pm_lines.specs.Wholes.{IsWhole};

use crate::cells::{self, is_single, newest};
use crate::powers::Power;
use pm_model::Cell;
use std::marker::Model;

/// A line that was taken out of a device. Its words are counted from the start of the line.
#[derive(Debug, Drop)]
pub struct Line {
    place: u64,
    cells: [Cell; 8],
}

impl Model for Line {
    ghost use Rattle.pm_model.specs.Parts.{Part};
    ghost use Rattle.pm_lines.specs.Wholes.{IsWhole};

    ghost Value = { Part };

    ghost view = { λ line. record { place = line.place; cells = line.cells } };

    ghost invariant = { λ line. IsWhole 8 line.cells };
}

impl Line {
    // A line of these cells.
    pub(crate) fn of(place: u64, cells: [Cell; 8]) -> Line
        requires { IsWhole 8 cells }
        ensures { result ≡ record { place = place; cells = cells } }
    {
        Line { place, cells }
    }

    pub(crate) fn cells(&self) -> &[Cell]
        ensures cells { result.now ≡ self.now.cells }
        ensures whole { IsWhole 8 result.now }
    {
        &self.cells
    }

    /// The line's number in its device.
    pub fn place(&self) -> u64
        ensures { result ≡ self.now.place }
    {
        self.place
    }

    /// The word's newest candidate.
    pub fn read_word(&self, word: u32) -> u64
        requires { word < 8 }
        ensures { result ≡ newest (cell self.now.cells word) }
    {
        newest(self.cells[word as usize])
    }

    /// Whether the word has one candidate.
    pub fn single(&self, word: u32) -> bool
        requires { word < 8 }
        ensures { result ≡ is_single (cell self.now.cells word) }
    {
        is_single(self.cells[word as usize])
    }

    /// Adds a candidate to the word, in one step.
    pub fn store_word(&mut self, power: &mut Power, word: u32, value: u64)
        requires in_line { word < 8 }
        requires single { is_single (cell self.old.cells word) ≡ true }
        ensures store { StoresWord (is_on power.old) word value self.old.cells self.new.cells }
        ensures place { self.new.place ≡ self.old.place }
        ensures power { power.new ≡ stepped power.old }
        ensures steps { Steps 1 power.old power.new }
    {
        if power.step() {
            cells::store(&mut self.cells, word as usize, value);
        }
    }

    /// Marks the present candidates of the eight words, in one step.
    pub fn flush(&mut self, power: &mut Power)
        ensures flush { FlushesLine (is_on power.old) 0 self.old.cells self.new.cells }
        ensures place { self.new.place ≡ self.old.place }
        ensures power { power.new ≡ stepped power.old }
        ensures steps { Steps 1 power.old power.new }
    {
        if power.step() {
            cells::flush(&mut self.cells, 0);
        }
    }

    /// Drops each candidate that is older than a marked one, in one step.
    pub fn fence(&mut self, power: &mut Power)
        ensures fence { Fences (is_on power.old) self.old.cells self.new.cells }
        ensures place { self.new.place ≡ self.old.place }
        ensures power { power.new ≡ stepped power.old }
        ensures steps { Steps 1 power.old power.new }
    {
        if power.step() {
            cells::fence(&mut self.cells);
        }
    }
}
