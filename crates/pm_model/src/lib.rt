//! The words of a persistent memory, as contracts see them.
//!
//! A device is a list of cells, one for each 8-byte word. A cell says which values the word may have
//! after a power loss, its candidates. An image is a function from word number to value, and is an
//! image of the device where each value is a candidate. All that the layers above promise about a
//! power loss is said with these few words, word by word.
//!
//! This crate has the one type and the definitions (`specs/`), and no work. It stands on std alone.
#![tactic(auto)]

ghost use Rattle.pm_model.specs.Rules.{IsFaithful};

/// One 8-byte word of the memory, with its candidates, the older first. A read gives the last one.
#[derive(Clone, Copy, Debug, PartialEq, Eq)]
pub enum Cell {
    /// One candidate, which every power loss leaves.
    Single(u64),
    /// Two candidates: the value before a store, and the value stored.
    Two(u64, u64),
    /// Two candidates, of which the newer is flushed, so that the next fence makes it the only one.
    Marked(u64, u64),
    /// The word is lent: who has it knows its candidates.
    Lent,
}

/// The four cases of a cell follow the rules of the memory: a store adds a candidate, a flush marks
/// the present ones, a fence drops each candidate that is older than a marked one.
pub fn cells_follow_the_rules()
    ensures { IsFaithful }
{}
