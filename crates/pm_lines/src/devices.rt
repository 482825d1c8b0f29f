//! The device: its words, and the stores, flushes and fences that change them.
ghost use Rattle.std.specs.Prelude.{◌≡◌, ◌≢◌, ◌+◌, ◌*◌, ◌/◌, ◌%◌, ◌<◌, ℕ, true, false, length, IfOk, OnErr};
ghost use Rattle.pm_model.specs.Cells.{cell, is_single, is_lent, newest, fenced, MayHold, AllHome};
ghost use Rattle.pm_model.specs.Frames.{SameLent, LineIsSingle, LineIsHome};
ghost use Rattle.pm_model.specs.Images.{IsImageOf, words_of};
ghost use Rattle.pm_model.specs.Parts.{GoesOut, ComesBack};
ghost use Rattle.pm_model.specs.Powers.{is_on, stepped, Steps};
ghost use Rattle.pm_model.specs.Words.{word_at, line_bytes};
ghost use Rattle.pm_lines.specs.Choices.{chosen};
ghost use Rattle.pm_lines.specs.Effects.{StoresWord, FlushesLine, Fences};

use crate::cells::{is_single, newest};
use crate::choices::Choice;
use crate::chosen::chosen_bytes;
use crate::images::{bytes_of_line, word_in, words_of_bytes};
use crate::lines::Line;
use crate::loans::Loan;
use crate::parts::{cells_of_line, newest_of_line, no_lines_out, note_lines, put_cells, put_words};
use crate::powers::Power;
use crate::words::Words;
use pm_model::Cell;
use std::alloc::{AllocError, Global};
use std::marker::Model;

/// A persistent memory: a list of words, each with its candidates.
///
/// A word is 8 bytes, a line 8 words, a block 512 words or 64 lines; each is named by its number,
/// counted from the start of the memory.
#[derive(Debug, Drop)]
pub struct Pm {
    // Of a lent word the candidate that it went out with.
    words: Words,
    // Of each line, whether it is lent.
    lent: Vec<bool>,
}

impl Model for Pm {
    ghost use Rattle.std.specs.Prelude.{List};
    ghost use Rattle.pm_model.specs.declared.Cell.{Cell};
    ghost use Rattle.pm_lines.specs.LentLines.{with_lent, HasLines};

    ghost Value = { List Cell };

    ghost view = { λ pm. with_lent pm.lent.items pm.words };

    ghost invariant = { λ pm. HasLines pm.lent.items pm.words };
}

impl Pm {
    // The word gets a second candidate.
    fn store(&mut self, word: usize, value: u64)
        requires in_device { word < length self.old }
        requires single { is_single (cell self.old word) ≡ true }
        ensures { StoresWord true word value self.old self.new }
    {
        self.words.store(word, value);
    }

    // Marks the present candidates of the line's words.
    fn mark(&mut self, line: usize)
        requires in_device { line < length self.old / 8 }
        requires home { LineIsHome line self.old }
        ensures { FlushesLine true line self.old self.new }
    {
        self.words.flush(line);
    }

    // Drops each candidate that is older than a marked one.
    fn drop_older(&mut self)
        ensures { Fences true self.old self.new }
    {
        self.words.fence();
    }
    /// A device with the words of an image, each of them durable.
    pub fn from_image(alloc: Global, bytes: &[u8]) -> Result<Pm, AllocError>
        requires { length bytes.now % 4096 ≡ 0 }
        ensures size { IfOk result (λ pm. 8 * length pm ≡ length bytes.now) }
        ensures words { IfOk result (λ pm. (i : ℕ) → cell pm i ≡ Cell.Single (word_at bytes.now i)) }
    {
        let words = Words::of(alloc, words_of_bytes(alloc, bytes)?)?;
        let lent = no_lines_out(alloc, words.len() / 8)?;
        Ok(Pm { words, lent })
    }

    /// How many words it has.
    pub fn words(&self) -> u64
        ensures { result ≡ length self.now }
    {
        self.words.len() as u64
    }

    /// The word's newest candidate.
    pub fn read_word(&self, word: u64) -> u64
        requires in_device { word < length self.now }
        requires home { is_lent (cell self.now word) ≡ false }
        ensures { result ≡ newest (cell self.now word) }
    {
        newest(self.words.cell_of(word as usize))
    }

    /// Whether the word has one candidate.
    pub fn single(&self, word: u64) -> bool
        requires in_device { word < length self.now }
        requires home { is_lent (cell self.now word) ≡ false }
        ensures { result ≡ is_single (cell self.now word) }
    {
        is_single(self.words.cell_of(word as usize))
    }

    /// The 64 bytes of a line, of each word the newest candidate.
    pub fn read_line(&self, line: u64) -> [u8; 64]
        requires in_device { line < length self.now / 8 }
        requires home { LineIsHome line self.now }
        ensures bytes { result ≡ line_bytes (words_of self.now) line }
        ensures words { (i : ℕ) → i / 8 ≡ line → word_at result (i % 8) ≡ newest (cell self.now i) }
    {
        bytes_of_line(&newest_of_line(&self.words, line as usize))
    }

    /// Adds a candidate to the word, in one step.
    pub fn store_word(&mut self, power: &mut Power, word: u64, value: u64)
        requires in_device { word < length self.old }
        requires single { is_single (cell self.old word) ≡ true }
        ensures store { StoresWord (is_on power.old) word value self.old self.new }
        ensures power { power.new ≡ stepped power.old }
        ensures steps { Steps 1 power.old power.new }
    {
        if power.step() {
            self.store(word as usize, value);
        }
    }

    /// Marks the present candidates of the line's words, in one step.
    pub fn flush(&mut self, power: &mut Power, line: u64)
        requires in_device { line < length self.old / 8 }
        requires home { LineIsHome line self.old }
        ensures flush { FlushesLine (is_on power.old) line self.old self.new }
        ensures power { power.new ≡ stepped power.old }
        ensures steps { Steps 1 power.old power.new }
    {
        if power.step() {
            self.mark(line as usize);
        }
    }

    /// Drops each candidate that is older than a marked one, in one step. Its cost goes by the lines
    /// that were flushed since the last fence.
    pub fn fence(&mut self, power: &mut Power)
        ensures fence { Fences (is_on power.old) self.old self.new }
        ensures power { power.new ≡ stepped power.old }
        ensures steps { Steps 1 power.old power.new }
    {
        if power.step() {
            self.drop_older();
        }
    }

    /// The bytes of an image that a power loss may leave, by the choice.
    pub fn choose(&self, alloc: Global, choice: Choice) -> Result<Vec<u8>, AllocError>
        requires { AllHome self.now }
        ensures image { IfOk result (λ bytes. IsImageOf self.now bytes.items) }
        ensures chosen { IfOk result (λ bytes. (i : ℕ)
            → word_at bytes.items i ≡ chosen choice self.now i) }
    {
        chosen_bytes(alloc, &self.words, choice)
    }

    /// Lends a block. Its words are then the loan's, until `settle`.
    pub fn lend(&mut self, alloc: Global, block: u32) -> Result<Loan, AllocError>
        requires in_device { block < length self.old / 512 }
        requires single { (i : ℕ) → i / 512 ≡ block → is_single (cell self.old i) ≡ true }
        ensures size { length self.new ≡ length self.old }
        ensures place { IfOk result (λ loan. loan.place ≡ block) }
        ensures lent { IfOk result (λ loan. GoesOut 512 block self.old self.new loan.cells) }
        ensures err { OnErr result (self.new ≡ self.old) }
    {
        let first = 64 * block as usize;
        let words = self.words.copy(alloc, 8 * first, 512)?;
        note_lines(&mut self.lent, first, 64, true);
        Ok(Loan::of(block, words))
    }

    /// Takes a loan back. Its marks end with it.
    pub fn settle(&mut self, loan: Loan)
        requires out { (i : ℕ) → i / 512 ≡ loan.place → is_lent (cell self.old i) ≡ true }
        ensures size { length self.new ≡ length self.old }
        ensures back { ComesBack 512 loan.place loan.cells self.old self.new }
        ensures home { (i : ℕ) → i / 512 ≡ loan.place → is_lent (cell self.new i) ≡ false }
    {
        let first = 64 * loan.block() as usize;
        put_words(&mut self.words, 8 * first, loan.words());
        note_lines(&mut self.lent, first, 64, false);
    }

    /// Takes a line out. Its words are then those of the `Line`, until `put_line`.
    pub fn take_line(&mut self, line: u64) -> Line
        requires in_device { line < length self.old / 8 }
        requires single { LineIsSingle line self.old }
        ensures size { length self.new ≡ length self.old }
        ensures place { result.place ≡ line }
        ensures lent { GoesOut 8 line self.old self.new result.cells }
    {
        let cells = cells_of_line(&self.words, line as usize);
        note_lines(&mut self.lent, line as usize, 1, true);
        Line::of(line, cells)
    }

    /// Puts a line back. Its marks end with it.
    pub fn put_line(&mut self, line: Line)
        requires out { (i : ℕ) → i / 8 ≡ line.place → is_lent (cell self.old i) ≡ true }
        ensures size { length self.new ≡ length self.old }
        ensures back { ComesBack 8 line.place line.cells self.old self.new }
        ensures home { LineIsHome line.place self.new }
    {
        // It bounds the lines' numbers.
        let _ = self.words();
        let place = line.place() as usize;
        put_cells(&mut self.words, 8 * place, line.cells());
        note_lines(&mut self.lent, place, 1, false);
    }

    /// Stores the 64 bytes of a line and flushes it, in nine steps. The next fence makes them durable.
    pub fn write_line(&mut self, power: &mut Power, line: u64, bytes: &[u8; 64])
        requires in_device { line < length self.old / 8 }
        requires single { LineIsSingle line self.old }
        ensures size { length self.new ≡ length self.old }
        ensures lent { SameLent self.old self.new }
        ensures others { (i : ℕ) → i / 8 ≢ line → cell self.new i ≡ cell self.old i }
        ensures steps { Steps 9 power.old power.new }

        // Wherever the power goes, each word is the old one or the new one.
        ensures torn { (i : ℕ) → i / 8 ≡ line
            → MayHold (cell self.old i) (word_at bytes.now (i % 8)) (cell self.new i) }
        ensures done { is_on power.new ≡ true → (i : ℕ) → i / 8 ≡ line
            → fenced (cell self.new i) ≡ Cell.Single (word_at bytes.now (i % 8)) }
        ensures off { is_on power.old ≡ false → (self.new ≡ self.old) × (power.new ≡ power.old) }
    {
        // It bounds the words' numbers.
        let _ = self.words();
        for k in 0..8 {
            self.store_word(power, 8 * line + k, word_in(bytes, k as usize));
        }
        self.flush(power, line);
    }
}
