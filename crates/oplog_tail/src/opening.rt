//! How a log is opened: its lines go into the slots of a table, and its seats are dealt.
ghost use Rattle.std.specs.Prelude.{◌≡◌, ◌≤◌, ◌<◌, ◌^◌, ℕ, [], length, map, replicate, IfOk};
ghost use Rattle.oplog_entry.specs.EntryLines.{IsSingle};
ghost use Rattle.oplog_tail.specs.Logs.{at_first, fresh_seat};
ghost use Rattle.oplog_entry.specs.LogLines.{line_at};
ghost use Rattle.oplog_tail.specs.Views.{newcomer};

use crate::logs::OpLog;
use crate::seats::LogSeat;
use crate::table::{Deals, LogPlace, LogShared};
use crate::views::{Slot, Start};
use atomic_table::Table;
use pm_lines::Line;
use std::alloc::{AllocError, Global};
use std::snapshot::Snapshot;

// The lines, each in a slot.
fn fresh_slots(alloc: Global, lines: Vec<Line>) -> Result<Vec<Slot>, AllocError>
    ensures { IfOk result (λ slots. slots.items ≡ map Slot.Fresh lines.items) }
{
    let mut slots = Vec::with_capacity(alloc, lines.len())?;
    for line in lines {
        slots.push(Slot::Fresh(line))?;
    }
    Ok(slots)
}

// A seat with room for as many claims as the log has lines.
fn seat_at(alloc: Global, place: LogPlace, capacity: usize) -> Result<LogSeat, AllocError>
    requires place { place.me ≡ (newcomer 1, []) }
    requires capacity { capacity ≡ place.table_id.slots }
    ensures { IfOk result (λ s. s ≡ fresh_seat place.table_id) }
{
    let claims = Vec::with_capacity(alloc, capacity)?;
    Ok(LogSeat {
        place,
        claims,
        full: None,
    })
}

// So many seats, each with a part of the first.
fn deal(
    alloc: Global,
    shared: &LogShared,
    first: LogPlace,
    seats: u32,
    capacity: usize,
) -> Result<Vec<LogSeat>, AllocError>
    requires some { 1 ≤ seats }
    requires first { first.me ≡ (newcomer seats, []) }
    requires table { (first.table_id ≡ shared.now.table_id) × (shared.now.table_id.words ≡ 2) }
    requires capacity { capacity ≡ shared.now.table_id.slots }
    ensures { IfOk result (λ dealt. dealt.items
        ≡ replicate seats (fresh_seat shared.now.table_id)) }
{
    let mut first = first;
    let mut dealt = Vec::with_capacity(alloc, seats as usize)?;
    for _seat in 1..seats {
        let place = shared.split_seat::<Deals>(&mut first);
        dealt.push(seat_at(alloc, place, capacity)?)?;
    }
    dealt.push(seat_at(alloc, first, capacity)?)?;
    Ok(dealt)
}

impl OpLog {
    /// Opens a log of these lines, at most 4,096, of which each word has one candidate, for 1 to 9 seats. The base, at most
    /// 2^63, is the sequence number of line 0's entry. Room for each seat's claims and for the lines that `close` gives back
    /// is made here; where there is none, the lines are dropped.
    pub fn open(
        alloc: Global,
        lines: Vec<Line>,
        base: u64,
        seats: u32,
    ) -> Result<(OpLog, Vec<LogSeat>), AllocError>
        requires seats { (1 ≤ seats) × (seats ≤ 9) }
        requires few { length lines.items ≤ 4096 }
        requires base { base ≤ 2 ^ 63 }
        requires single { (n : ℕ) → n < length lines.items → IsSingle (line_at lines.items n).cells }
        ensures log { IfOk result (λ made. (made.0.base ≡ base) × (made.0.seats ≡ seats) × (made.0.lines ≡ lines.items)) }
        ensures seats { IfOk result (λ made. made.1.items ≡ replicate seats (at_first made.0)) }
    {
        let start = Start {
            seats,
            base,
            lines: Snapshot::of(&lines),
        };
        let room = Vec::with_capacity(alloc, lines.len())?;
        let slots = fresh_slots(alloc, lines)?;
        let Ok((table, first)) = Table::new(alloc, &[0, 0], slots, &start) else {
            return Err(AllocError);
        };
        let capacity = table.slot_count();
        let dealt = deal(alloc, &table.shared, first, seats, capacity)?;
        let log = OpLog { table, base, room };
        Ok((log, dealt))
    }
}
