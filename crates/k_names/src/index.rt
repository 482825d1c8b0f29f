//! An index of lines: pairs of a word and a line in rising order, which are halved by a look-up.

ghost use Rattle.std.specs.Prelude.{◌≡◌, ◌^◌, ◌<◌, ◌+◌, ℕ, length, vec_capacity, IfSome, IfNone, IfOk};
ghost use Rattle.k_names.specs.Indexes.{pair_of, AreBlank, Has, HasNoLine, IsBegun, IsChanged, IsNextLine, IsRising};

use std::alloc::{AllocError, Global};
use std::marker::Model;

/// How many lines a word has room for.
const LINES: u64 = 0x1_0000_0000;

/// The word of the lines that are free. Lines that are in use may have it, too.
pub(crate) const NO_WORD: u32 = u32::MAX;

// A word and a line as one number.
fn pair(word: u32, line: u32) -> u64
    ensures { result ≡ pair_of word line }
{
    u64::from(word) * LINES + u64::from(line)
}

// How many pairs are below one.
fn begun(pairs: &[u64], pair: u64) -> usize
    requires { IsRising pairs.now }
    ensures { IsBegun pairs.now pair result }
{
    let mut low = 0;
    let mut high = pairs.len();
    while low < high {
        let middle = low + (high - low) / 2;
        if pairs[middle] < pair {
            low = middle + 1;
        } else {
            high = middle;
        }
    }
    low
}

// The pairs of so many lines that are free.
fn blank_pairs(alloc: Global, lines: u32) -> Result<Vec<u64>, AllocError>
    ensures { IfOk result (λ pairs. AreBlank pairs.items lines) }
{
    let mut pairs = Vec::with_capacity(alloc, lines as usize)?;
    for line in 0..lines {
        pairs.push(pair(NO_WORD, line))?;
    }
    Ok(pairs)
}

/// Each line of a table with a word. Contracts see the pairs of a word and a line, in rising order.
#[derive(Debug, Drop)]
pub(crate) struct LineIndex {
    pairs: Vec<u64>,
}

impl Model for LineIndex {
    ghost use Rattle.std.specs.Prelude.{◌≤◌, ℕ, List, vec_capacity, vec_len};
    ghost use Rattle.k_names.specs.Indexes.{IsRising};

    ghost Value = { List ℕ };

    ghost view = { λ index. index.pairs.items };

    ghost invariant = { λ index.
        IsRising index.pairs.items × (vec_len index.pairs ≤ vec_capacity index.pairs) };
}

impl LineIndex {
    /// So many lines, each of them free.
    pub(crate) fn new(alloc: Global, lines: u32) -> Result<LineIndex, AllocError>
        ensures { IfOk result (λ index. AreBlank index lines) }
    {
        let pairs = blank_pairs(alloc, lines)?;
        Ok(LineIndex { pairs })
    }

    /// The lowest line of a word from a line on.
    pub(crate) fn next(&self, word: u32, from: u32) -> Option<u32>
        ensures some { IfSome result (λ line. IsNextLine self.now word from line) }
        ensures none { IfNone result (HasNoLine self.now word from) }
    {
        let at = begun(&self.pairs, pair(word, from));
        if at == self.pairs.len() {
            return None;
        }
        let found = self.pairs[at];
        if found / LINES == u64::from(word) {
            Some((found % LINES) as u32)
        } else {
            None
        }
    }

    /// Gives a line another word. It takes no memory.
    pub(crate) fn change(&mut self, line: u32, old: u32, new: u32)
        requires has { Has self.old (pair_of old line) }
        requires once { Has self.old (pair_of new line) → new ≡ old }
        ensures { IsChanged self.old (pair_of old line) (pair_of new line) self.new }
    {
        let at = begun(&self.pairs, pair(old, line));
        self.pairs.remove(at);
        let to = begun(&self.pairs, pair(new, line));
        // the place of the pair that is gone is room for it
        let _put = self.pairs.insert(to, pair(new, line));
    }
}
