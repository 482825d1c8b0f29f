//! A log that threads share.
use crate::table::LogTable;
use pm_lines::Line;
use std::marker::Model;

/// A log whose lines threads claim and write at once.
#[derive(Drop)]
pub struct OpLog {
    pub(crate) table: LogTable,
    pub(crate) base: u64,
    pub(crate) room: Vec<Line>,
}

impl Model for OpLog {
    ghost use Rattle.std.specs.Prelude.{vec_capacity};
    ghost use Rattle.oplog_tail.specs.Logs.{IsLog, LogView};

    ghost Value = { LogView };

    ghost view = { λ l. record { id = l.table.shared.table_id; base = l.base; seats = l.table.shared.key.seats; lines = l.table.shared.key.lines.value.items } };

    ghost invariant = { λ l. IsLog l.table.shared.table_id l.table.shared.key l.base l.room.items (vec_capacity l.room) };
}
