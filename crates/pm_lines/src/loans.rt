//! A block that was lent by a device, with its cells.
ghost use Rattle.std.specs.Prelude.{◌≡◌, ◌≢◌, ◌/◌, ◌<◌, ℕ, true, false, length, slice_index};
ghost use Rattle.pm_model.specs.declared.Cell.TheVariants.{Single};
ghost use Rattle.pm_model.specs.Cells.{cell, fenced, is_single, newest, MayHold};
ghost use Rattle.pm_model.specs.Powers.{is_on, stepped, Steps};
ghost use Rattle.pm_lines.specs.Effects.{stepped_by, StoresWord, FlushesLine, Fences};

use crate::cells::{is_single, newest};
use crate::powers::Power;
use crate::words::Words;
use std::marker::Model;

/// A block that was lent by a device. Its words and lines are counted from the start of the block.
#[derive(Debug, Drop)]
pub struct Loan {
    block: u32,
    words: Words,
}

impl Model for Loan {
    ghost use Rattle.std.specs.Prelude.{◌≡◌, length};
    ghost use Rattle.pm_model.specs.Parts.{Part};

    ghost Value = { Part };

    ghost view = { λ loan. record { place = loan.block; cells = loan.words } };

    ghost invariant = { λ loan. length loan.words ≡ 512 };
}

impl Loan {
    // A loan of these 512 words.
    pub(crate) fn of(block: u32, words: Words) -> Loan
        requires { length words ≡ 512 }
        ensures { result ≡ record { place = block; cells = words } }
    {
        Loan { block, words }
    }

    pub(crate) fn words(&self) -> &Words
        ensures words { result.now ≡ self.now.cells }
        ensures count { length result.now ≡ 512 }
    {
        &self.words
    }

    /// The block's number in its device.
    pub fn block(&self) -> u32
        ensures { result ≡ self.now.place }
    {
        self.block
    }

    /// The word's newest candidate.
    pub fn read_word(&self, word: u32) -> u64
        requires { word < 512 }
        ensures { result ≡ newest (cell self.now.cells word) }
    {
        newest(self.words.cell_of(word as usize))
    }

    /// Whether the word has one candidate.
    pub fn single(&self, word: u32) -> bool
        requires { word < 512 }
        ensures { result ≡ is_single (cell self.now.cells word) }
    {
        is_single(self.words.cell_of(word as usize))
    }

    /// Adds a candidate to the word, in one step.
    pub fn store_word(&mut self, power: &mut Power, word: u32, value: u64)
        requires in_block { word < 512 }
        requires single { is_single (cell self.old.cells word) ≡ true }
        ensures store { StoresWord (is_on power.old) word value self.old.cells self.new.cells }
        ensures place { self.new.place ≡ self.old.place }
        ensures power { power.new ≡ stepped power.old }
        ensures steps { Steps 1 power.old power.new }
    {
        if power.step() {
            self.words.store(word as usize, value);
        }
    }

    /// Marks the present candidates of the line's words, in one step.
    pub fn flush(&mut self, power: &mut Power, line: u32)
        requires { line < 64 }
        ensures flush { FlushesLine (is_on power.old) line self.old.cells self.new.cells }
        ensures place { self.new.place ≡ self.old.place }
        ensures power { power.new ≡ stepped power.old }
        ensures steps { Steps 1 power.old power.new }
    {
        if power.step() {
            self.words.flush(line as usize);
        }
    }

    /// Drops each candidate that is older than a marked one, in one step.
    pub fn fence(&mut self, power: &mut Power)
        ensures fence { Fences (is_on power.old) self.old.cells self.new.cells }
        ensures place { self.new.place ≡ self.old.place }
        ensures power { power.new ≡ stepped power.old }
        ensures steps { Steps 1 power.old power.new }
    {
        if power.step() {
            self.words.fence();
        }
    }

    // Stores the words of a line, and flushes it.
    fn write_line(&mut self, power: &mut Power, line: u32, words: &[u64])
        requires line { line < 64 }
        requires words { length words.now ≡ 512 }
        requires single { (i : ℕ) → i / 8 ≡ line → is_single (cell self.old.cells i) ≡ true }
        ensures place { self.new.place ≡ self.old.place }
        ensures power { power.new ≡ stepped_by 9 power.old }
        ensures others { (i : ℕ) → i / 8 ≢ line → cell self.new.cells i ≡ cell self.old.cells i }
        ensures torn { (i : ℕ) → i / 8 ≡ line
            → MayHold (cell self.old.cells i) (slice_index words.now i) (cell self.new.cells i) }
        ensures done { is_on power.new ≡ true → (i : ℕ) → i / 8 ≡ line
            → fenced (cell self.new.cells i) ≡ Single (slice_index words.now i) }
        ensures off { is_on power.old ≡ false → self.new ≡ self.old }
    {
        for k in 0..8 {
            let word = 8 * line + k;
            self.store_word(power, word, words[word as usize]);
        }
        self.flush(power, line);
    }

    // Stores the words of the block, line after line, and makes them durable.
    fn write_lines(&mut self, power: &mut Power, words: &[u64])
        requires words { length words.now ≡ 512 }
        requires single { (i : ℕ) → i < 512 → is_single (cell self.old.cells i) ≡ true }
        ensures place { self.new.place ≡ self.old.place }
        ensures power { power.new ≡ stepped_by 577 power.old }
        ensures torn { (i : ℕ) → i < 512
            → MayHold (cell self.old.cells i) (slice_index words.now i) (cell self.new.cells i) }
        ensures done { is_on power.new ≡ true → (i : ℕ) → i < 512
            → cell self.new.cells i ≡ Single (slice_index words.now i) }
        ensures off { is_on power.old ≡ false → self.new ≡ self.old }
    {
        for line in 0..64 {
            self.write_line(power, line, words);
        }
        self.fence(power);
    }

    /// Stores the 512 words of the block and flushes each line once, line after line, and fences: in 577
    /// steps, or as many as are left. Each word has one candidate before.
    pub fn write_block(&mut self, power: &mut Power, words: &[u64])
        requires words { length words.now ≡ 512 }
        requires single { (i : ℕ) → i < 512 → is_single (cell self.old.cells i) ≡ true }
        ensures place { self.new.place ≡ self.old.place }
        ensures power { power.new ≡ stepped_by 577 power.old }
        ensures steps { Steps 577 power.old power.new }

        // Wherever the power goes, each word is the old one or the new one.
        ensures torn { (i : ℕ) → i < 512
            → MayHold (cell self.old.cells i) (slice_index words.now i) (cell self.new.cells i) }
        ensures done { is_on power.new ≡ true → (i : ℕ) → i < 512
            → cell self.new.cells i ≡ Single (slice_index words.now i) }
        ensures off { is_on power.old ≡ false → self.new ≡ self.old }
    {
        if power.step_by(577) {
            self.words.replace_from(0, words);
        } else {
            self.write_lines(power, words);
        }
    }
}
