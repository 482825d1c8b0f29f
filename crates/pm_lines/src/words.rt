// The words of a memory of which none is lent: a device's, a loan's. A store, a flush, a fence and
// a look-up cost by the words that they touch or that are marked, never by the size.
ghost use Rattle.std.specs.Prelude.{◌≡◌, ◌≢◌, ◌+◌, ◌-◌, ◌*◌, ◌/◌, ◌%◌, ◌<◌, ◌≤◌, ℕ, true, false, length, slice_index, vec_capacity, IfOk, MatchOption};
ghost use Rattle.pm_model.specs.Cells.{cell, is_single, is_lent, stored, unmarked};
ghost use Rattle.pm_model.specs.Cells.{flushed as flushed_cell, fenced as fenced_cell};
ghost use Rattle.pm_lines.specs.Pairs.{word_cell, IsLinked, ArePairsOf, AreSingle, IsNextTwo};

use crate::pairs::{Pair, add_pair, copy_numbers, drop_pair, next_pair, place_of, swap_pairs};
use pm_model::Cell;
use std::alloc::{AllocError, Global};
use std::marker::Model;

#[derive(Debug, Drop)]
pub(crate) struct Words {
    // A word with one candidate is its number; of one with two the number leads to its pair.
    values: Vec<u64>,
    // The first `marked` pairs are marked. There is room for a pair of each word.
    pairs: Vec<Pair>,
    marked: usize,
}

impl Model for Words {
    ghost use Rattle.std.specs.Prelude.{List, vec_capacity};
    ghost use Rattle.pm_model.specs.declared.Cell.{Cell};
    ghost use Rattle.pm_lines.specs.Pairs.{cells_of, IsHeld};

    ghost Value = { List Cell };

    ghost view = { λ words. cells_of words.values.items words.pairs.items words.marked };

    ghost invariant = { λ words. IsHeld words.values.items words.pairs.items words.marked
        (vec_capacity words.pairs) };
}

// Drops what is older than a marked candidate. The first `marked` pairs are marked.
fn fence_pairs(values: &mut Vec<u64>, pairs: &mut Vec<Pair>, marked: usize)
    requires in_range { marked ≤ length pairs.old.items }
    requires linked { IsLinked values.old.items pairs.old.items }
    ensures size { length values.new.items ≡ length values.old.items }
    ensures linked { IsLinked values.new.items pairs.new.items }
    ensures capacity { vec_capacity pairs.new ≡ vec_capacity pairs.old }
    ensures cells { (i : ℕ) → word_cell values.new.items pairs.new.items 0 i
        ≡ fenced_cell (word_cell values.old.items pairs.old.items marked i) }
{
    let mut left = marked;
    while left > 0 {
        left -= 1;
        drop_pair(values, pairs, left);
    }
}

impl Words {
    // Words with these numbers as their only candidates.
    pub(crate) fn of(alloc: Global, values: Vec<u64>) -> Result<Words, AllocError>
        ensures size { IfOk result (λ words. length words ≡ length values.items) }
        ensures cells { IfOk result (λ words. (i : ℕ)
            → cell words i ≡ Cell.Single (slice_index values.items i)) }
    {
        let pairs = Vec::with_capacity(alloc, values.len())?;
        Ok(Words {
            values,
            pairs,
            marked: 0,
        })
    }

    pub(crate) fn len(&self) -> usize
        ensures { result ≡ length self.now }
    {
        self.values.len()
    }

    pub(crate) fn cell_of(&self, word: usize) -> Cell
        requires { word < length self.now }
        ensures cell { result ≡ cell self.now word }
        ensures home { is_lent result ≡ false }
    {
        match place_of(&self.values, &self.pairs, word) {
            None => Cell::Single(self.values[word]),
            Some(place) => {
                let pair = self.pairs[place];
                if place < self.marked {
                    Cell::Marked(pair.old, pair.new)
                } else {
                    Cell::Two(pair.old, pair.new)
                }
            }
        }
    }

    // The word gets a second candidate.
    pub(crate) fn store(&mut self, word: usize, value: u64)
        requires in_range { word < length self.old }
        requires single { is_single (cell self.old word) ≡ true }
        ensures size { length self.new ≡ length self.old }
        ensures stored { cell self.new word ≡ stored value (cell self.old word) }
        ensures others { (i : ℕ) → i ≢ word → cell self.new i ≡ cell self.old i }
    {
        add_pair(&mut self.values, &mut self.pairs, word, value);
    }

    // Marks the word's candidates.
    fn mark(&mut self, word: usize)
        requires { word < length self.old }
        ensures size { length self.new ≡ length self.old }
        ensures marked { cell self.new word ≡ flushed_cell (cell self.old word) }
        ensures others { (i : ℕ) → i ≢ word → cell self.new i ≡ cell self.old i }
    {
        if let Some(place) = place_of(&self.values, &self.pairs, word) {
            if place >= self.marked {
                swap_pairs(&mut self.values, &mut self.pairs, place, self.marked);
                self.marked += 1;
            }
        }
    }

    // Marks the candidates of the line's words.
    pub(crate) fn flush(&mut self, line: usize)
        requires { line < length self.old / 8 }
        ensures size { length self.new ≡ length self.old }
        ensures words { (i : ℕ) → i / 8 ≡ line → cell self.new i ≡ flushed_cell (cell self.old i) }
        ensures others { (i : ℕ) → i / 8 ≢ line → cell self.new i ≡ cell self.old i }
    {
        // It bounds the words' numbers.
        let _ = self.len();
        let first = 8 * line;
        for word in first..first + 8 {
            self.mark(word);
        }
    }

    // Drops what is older than a marked candidate.
    pub(crate) fn fence(&mut self)
        ensures size { length self.new ≡ length self.old }
        ensures cells { (i : ℕ) → cell self.new i ≡ fenced_cell (cell self.old i) }
    {
        fence_pairs(&mut self.values, &mut self.pairs, self.marked);
        self.marked = 0;
    }

    // Gives a word with one candidate those of a cell, without its mark.
    pub(crate) fn put(&mut self, word: usize, from: Cell)
        requires in_range { word < length self.old }
        requires single { is_single (cell self.old word) ≡ true }
        requires home { is_lent from ≡ false }
        ensures size { length self.new ≡ length self.old }
        ensures word { cell self.new word ≡ unmarked from }
        ensures others { (i : ℕ) → i ≢ word → cell self.new i ≡ cell self.old i }
    {
        match from {
            Cell::Single(value) => self.replace(word, value),
            Cell::Two(old, new) | Cell::Marked(old, new) => {
                self.replace(word, old);
                self.store(word, new);
            }
            Cell::Lent => {}
        }
    }

    // Gives a word with one candidate another one.
    fn replace(&mut self, word: usize, value: u64)
        requires in_range { word < length self.old }
        requires single { is_single (cell self.old word) ≡ true }
        ensures size { length self.new ≡ length self.old }
        ensures word { cell self.new word ≡ Cell.Single value }
        ensures others { (i : ℕ) → i ≢ word → cell self.new i ≡ cell self.old i }
    {
        self.values[word] = value;
    }

    // Gives words with one candidate each others, from the first on.
    pub(crate) fn replace_from(&mut self, first: usize, part: &[u64])
        requires in_range { first + length part.now ≤ length self.old }
        requires single { (i : ℕ) → first ≤ i → i < first + length part.now
            → is_single (cell self.old i) ≡ true }
        ensures size { length self.new ≡ length self.old }
        ensures inside { (k : ℕ) → k < length part.now
            → cell self.new (first + k) ≡ Cell.Single (slice_index part.now k) }
        ensures below { (i : ℕ) → i < first → cell self.new i ≡ cell self.old i }
        ensures above { (i : ℕ) → first + length part.now ≤ i → cell self.new i ≡ cell self.old i }
    {
        copy_numbers(&mut self.values, first, part);
    }

    // A number for each word. Of a word with one candidate it is the candidate.
    pub(crate) fn numbers(&self) -> &[u64]
        ensures size { length result.now ≡ length self.now }
        ensures single { (i : ℕ) → is_single (cell self.now i) ≡ true
            → cell self.now i ≡ Cell.Single (slice_index result.now i) }
    {
        &self.values
    }

    // A pair for each word with two candidates, in no order.
    pub(crate) fn pairs(&self) -> &[Pair]
        ensures { ArePairsOf self.now result.now }
    {
        &self.pairs
    }

    // The next word with two candidates, from a word on.
    pub(crate) fn next_two(&self, from: usize) -> Option<usize>
        ensures { MatchOption result (AreSingle self.now from (length self.now))
            (IsNextTwo self.now from) }
    {
        next_pair(&self.values, &self.pairs, from)
    }

    // A copy of so many words, each of one candidate.
    pub(crate) fn copy(
        &self,
        alloc: Global,
        first: usize,
        count: usize,
    ) -> Result<Words, AllocError>
        requires in_range { first + count ≤ length self.now }
        requires single { (i : ℕ) → first ≤ i → i < first + count
            → is_single (cell self.now i) ≡ true }
        ensures size { IfOk result (λ words. length words ≡ count) }
        ensures cells { IfOk result (λ words. (k : ℕ) → k < count
            → cell words k ≡ cell self.now (first + k)) }
    {
        let values = Vec::from_slice(alloc, &self.numbers()[first..first + count])?;
        Words::of(alloc, values)
    }
}
