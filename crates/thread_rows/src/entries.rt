//! The protocol of a list to which passes append.
use ruled_turn::{Pass, Protocol, Turn};
use std::collections::LinkedList;

/// What a pass appended. No value of it is made.
pub struct Own {
    pub entries: LinkedList<u64>,
}

/// Each entry stands in the list as often as passes appended it.
pub struct Appends;

impl Protocol<Vec<u64>, Own> for Appends {
    ghost use Rattle.thread_rows.specs.Entries.{first_views, Holds, Knows, May, next_view, Opens};
    ghost use Rattle.thread_rows.specs.EntryLaws.{keeps_entries, sized_views, starts_empty, tells_own};

    ghost opens = { Opens };

    ghost first = { first_views };

    ghost holds = { Holds };

    ghost may = { May };

    ghost next = { next_view };

    ghost knows = { Knows };

    ghost sized = { sized_views };

    ghost starts = { starts_empty };

    ghost keeps = { keeps_entries };

    ghost tells = { tells_own };
}

/// A turn over such a list.
pub type EntryTurn = Turn<Vec<u64>, Own, Appends>;

/// One of its passes.
pub type EntryPass = Pass<Vec<u64>, Own>;
