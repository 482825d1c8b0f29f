//! Batches: the lines that one commit sets, each with its new bytes.
ghost use Rattle.std.specs.Prelude.{◌≡◌, ◌+◌, ◌<◌, ◌≤◌, ◌==◌, ◌↔◌, ℕ, Bool, true, [], length, slice_index, IsTrue, IsOk, OnOk, OnErr, IfOk, IfErr, MatchOption};
ghost use Rattle.k_journal.specs.Batch.{has_line, with_batch, with_line_set, new_lines, new_with, AllLines, AreLaid, HasLine, IsDistinct, IsNew, IsFirstPlace};
ghost use Rattle.pm_lines.specs.pm_model.Words.{Words, with_line};

use std::alloc::{AllocError, Global};
use std::marker::Model;
use thiserror::Error;

/// The most lines that a batch holds, and that one transaction sets.
pub const MOST_LINES: usize = 128;

/// A line that a transaction sets, and the 64 bytes that it sets it to.
#[derive(Clone, Copy, Debug, PartialEq, Eq)]
pub struct Record {
    /// The line's number in the device.
    pub line: u64,
    /// Its content.
    pub bytes: [u8; 64],
}

/// A batch has no room for another line.
#[derive(Clone, Copy, Debug, PartialEq, Eq, Error)]
#[error("the batch is full at {count} lines")]
pub struct BatchFull {
    /// How many lines are there.
    pub count: u32,
}

/// The lines that the next commit sets, each once. It has room for 128.
#[derive(Debug, Drop)]
pub struct Batch {
    entries: Vec<Record>,
}

impl Model for Batch {
    ghost use Rattle.std.specs.Prelude.{List};
    ghost use Rattle.std.specs.Vec.{vec_capacity};
    ghost use Rattle.k_journal.specs.declared.batches.Record.{Record};
    ghost use Rattle.k_journal.specs.Batch.{HasRoom};

    ghost Value = { List Record };

    ghost view = { λ batch. batch.entries.items };

    ghost invariant = { λ batch. HasRoom batch.entries.items (vec_capacity batch.entries) };
}

impl Batch {
    /// An empty batch, with all the room that it will need.
    pub fn new(alloc: Global) -> Result<Batch, AllocError>
        ensures { IfOk result (λ batch. batch ≡ []) }
    {
        Ok(Batch {
            entries: Vec::with_capacity(alloc, MOST_LINES)?,
        })
    }

    /// How many lines it sets.
    pub fn len(&self) -> u32
        ensures count { result ≡ length self.now }
        ensures most { result ≤ 128 }
    {
        self.entries.len() as u32
    }

    /// Whether it sets no line.
    pub fn is_empty(&self) -> bool
        ensures { result ≡ (length self.now == 0) }
    {
        self.entries.is_empty()
    }

    /// Sets a line to 64 bytes. A line that is there already gets the new content. `BatchFull`
    /// comes where the line is new and 128 are there; the batch is then as before.
    pub fn put(&mut self, line: u64, bytes: [u8; 64]) -> Result<(), BatchFull>
        ensures known { HasLine self.old line → IsOk result }
        ensures free { length self.old < 128 → IsOk result }
        ensures full { IfErr result (λ e. (e.count ≡ 128)
            × (length self.old ≡ 128) × IsNew self.old line) }
        ensures err { OnErr result (self.new ≡ self.old) }

        ensures count { length self.new ≤ length self.old + 1 }
        ensures entries { OnOk result (self.new ≡ with_line_set self.old line bytes) }
        ensures meaning { OnOk result ((f : Words) (i : ℕ)
            → with_batch self.new f i ≡ with_line line bytes (with_batch self.old f) i) }
        ensures lines { (test : ℕ → Bool) → test line ≡ true
            → AllLines test self.old → AllLines test self.new }
    {
        let entry = Record { line, bytes };
        if let Some(place) = place_of(&self.entries, line) {
            self.entries[place] = entry;
            return Ok(());
        }
        if self.entries.len() == MOST_LINES {
            return Err(BatchFull { count: 128 });
        }
        self.entries.push_reserved(entry);
        Ok(())
    }

    /// Sets a line to 64 bytes, as `put` does, where there is room for another line.
    pub fn put_line(&mut self, line: u64, bytes: [u8; 64])
        requires room { length self.old < 128 }
        ensures count { length self.new ≤ length self.old + 1 }
        ensures entries { self.new ≡ with_line_set self.old line bytes }
        ensures meaning { (f : Words) (i : ℕ)
            → with_batch self.new f i ≡ with_line line bytes (with_batch self.old f) i }
        ensures lines { (test : ℕ → Bool) → test line ≡ true
            → AllLines test self.old → AllLines test self.new }
        ensures size { length bytes ≡ 64 }
        ensures small { (k : ℕ) → slice_index bytes k < 256 }
    {
        match self.put(line, bytes) {
            Ok(()) => {}
            Err(_) => unreachable!(),
        }
    }

    /// Whether there is room for the lines of another batch beside these: a line that both set is
    /// one. At most 128 lines fit.
    pub fn has_room_for(&self, other: &Batch) -> bool
        ensures { IsTrue result ↔ (length self.now + length (new_lines self.now other.now) ≤ 128) }
    {
        new_count(&self.entries, &other.entries) <= MOST_LINES
    }

    /// Whether there is room for the lines of another batch, and for one line besides: a line that
    /// is set in both, or in either, is one. At most 128 lines fit.
    pub fn has_room_with(&self, other: &Batch, line: u64) -> bool
        ensures { IsTrue result ↔ (length self.now + new_with self.now other.now line ≤ 128) }
    {
        let set = sets_line(&self.entries, line) || sets_line(&other.entries, line);
        let more = if set { 0 } else { 1 };
        new_count(&self.entries, &other.entries) + more <= MOST_LINES
    }

    // Sets the lines of entries, of which each is once; there is room for those that are new.
    fn put_entries(&mut self, entries: &[Record])
        requires distinct { IsDistinct entries.now }
        requires room { length self.old + length (new_lines self.old entries.now) ≤ 128 }
        ensures { AreLaid self.old entries.now self.new }
    {
        for entry in entries {
            match self.put(entry.line, entry.bytes) {
                Ok(()) => {}
                Err(_) => unreachable!(),
            }
        }
    }

    /// Lays the lines of another batch over these, where there is room for them. A line that both
    /// set is set as the other does. The other is empty then. It takes no memory.
    pub fn lay(&mut self, other: &mut Batch)
        requires { length self.old + length (new_lines self.old other.old) ≤ 128 }
        ensures laid { AreLaid self.old other.old self.new }
        ensures empty { other.new ≡ [] }
    {
        self.put_entries(other.entries());
        other.clear();
    }

    // Its entries, each line once.
    pub(crate) fn entries(&self) -> &[Record]
        ensures entries { result.now ≡ self.now }
        ensures most { length self.now ≤ 128 }
        ensures distinct { IsDistinct self.now }
    {
        &self.entries
    }

    /// Empties it, and keeps its room.
    pub fn clear(&mut self)
        ensures { self.new ≡ [] }
    {
        self.entries.clear();
    }
}

// The first place of a line among the entries.
fn place_of(entries: &[Record], line: u64) -> Option<usize>
    ensures { MatchOption result (IsNew entries.now line) (IsFirstPlace entries.now line) }
{
    for (place, entry) in entries.iter().enumerate() {
        if entry.line == line {
            return Some(place);
        }
    }
    None
}

// Whether one of the entries is of the line.
fn sets_line(entries: &[Record], line: u64) -> bool
    ensures { result ≡ has_line entries.now line }
{
    place_of(entries, line).is_some()
}

// How many lines are set in all: those of the entries, and those of the others that are new.
fn new_count(entries: &[Record], others: &[Record]) -> usize
    requires few { length entries.now ≤ 128 }
    requires few_others { length others.now ≤ 128 }
    ensures count { result ≡ length entries.now + length (new_lines entries.now others.now) }
    ensures few { result ≤ 256 }
{
    let mut count = entries.len();
    for entry in others {
        if !sets_line(entries, entry.line) {
            count += 1;
        }
    }
    count
}
