//! The table that the threads share: its rule, and its kinds of step.
use crate::views::{Knows, Slot, Start};
use atomic_table::{Join, Play, Seat, Shared, Split, Table, TableRule};
use std::alloc::Global;

/// The rule of the log.
pub struct LogRule;

impl TableRule<Slot, Knows, Start> for LogRule {
    ghost use Rattle.oplog_tail.specs.Rule.{first_view, Kept};

    ghost holds = { Kept };

    ghost first = { first_view };
}

/// A claim of the next number.
pub struct Claims;

impl Play<Slot, Knows> for Claims {
    ghost use Rattle.oplog_tail.specs.Steps.{claimed};

    ghost then = { claimed };
}

/// A mark of the line that is put back.
pub struct Marks;

impl Play<Slot, Knows> for Marks {
    ghost use Rattle.oplog_tail.specs.Steps.{marked};

    ghost then = { marked };
}

/// One part goes to a new seat.
pub struct Deals;

impl Split<Knows> for Deals {
    ghost use Rattle.std.specs.Prelude.{◌-◌};
    ghost use Rattle.oplog_tail.specs.Views.{newcomer, with_parts};

    ghost left = { λ v. with_parts v (v.parts - 1) };

    ghost right = { λ v. newcomer 1 };
}

/// One seat takes over what another knows.
pub struct Gathers;

impl Join<Knows> for Gathers {
    ghost use Rattle.oplog_tail.specs.Views.{joined, newcomer};

    ghost both = { joined };

    ghost spent = { newcomer 0 };
}

/// The table of a log.
pub type LogTable = Table<Slot, Knows, Start, LogRule, Global>;

/// A seat at it.
pub type LogPlace = Seat<Slot, Knows>;

/// What threads have of it.
pub type LogShared = Shared<Slot, Knows, Start, LogRule>;
