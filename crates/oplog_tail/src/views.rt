//! What seats know of a log, what its slots hold, and what a log is opened with. Of `Claim`, `Opened` and `Knows`
//! no value is made: they are for the proofs alone.
use layout_model::Draft;
use oplog_entry::Mark;
use pm_lines::Line;
use std::collections::LinkedList;
use std::snapshot::Snapshot;

/// A number that a seat claimed, below the number of lines, with its entry.
pub struct Claim {
    pub number: u64,
    pub entry: Draft,
    pub mark: Mark,
}

/// What a slot of the log holds.
#[derive(Drop)]
pub enum Slot {
    /// The line that the log was opened with.
    Fresh(Line),
    /// Nothing, while a seat writes the line.
    Out,
    /// The line that a seat put back, with its entry.
    Filled(Line, Draft),
}

/// A claim that is under way, with its line as it was at first.
pub struct Opened {
    pub number: u64,
    pub line: Line,
}

/// What a seat knows.
pub struct Knows {
    /// Its parts of the log: one for each seat that it stands for.
    pub parts: u64,
    /// Its claims, in the order in which it made them.
    pub claims: LinkedList<Claim>,
    /// The claim that is under way.
    pub held: Option<Opened>,
    /// The numbers that it claimed past the last line.
    pub full: LinkedList<u64>,
}

/// What a log is opened with.
#[derive(Drop)]
pub struct Start {
    pub seats: u32,
    pub base: u64,
    pub lines: Snapshot<Vec<Line>>,
}
