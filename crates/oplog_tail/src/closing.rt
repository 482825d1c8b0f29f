//! How a log is closed: its seats come together again, and its lines come out of the slots.
ghost use Rattle.std.specs.Prelude.{◌≡◌, ◌≤◌, ◌<◌, ℕ, List, [], All, length, map, vec_capacity};
ghost use Rattle.std.specs.List.{flat_map};
ghost use Rattle.std.specs.Mem.Slots.{slots_items, slots_len, IsFull};
ghost use Rattle.oplog_entry.specs.image_model.LogRule.{HoldsClaims};
ghost use Rattle.oplog_tail.specs.Closing.{AllWritten, AreFirst, AreNumbered, claims_of_all, first_words, full_number, HasLine, LeavesLines, line_in};
ghost use Rattle.oplog_entry.specs.LogLines.{cells_of};
ghost use Rattle.oplog_tail.specs.Logs.{IsSeatOf, LogView};
ghost use Rattle.oplog_tail.specs.Seats.{pairs_of, SeatView};

use crate::logs::OpLog;
use crate::seats::LogSeat;
use crate::table::{Gathers, LogPlace, LogShared};
use crate::views::Slot;
use atomic_table::Closed;
use pm_lines::Line;
use std::alloc::Global;

// The place of a seat.
fn place_of(seat: LogSeat) -> LogPlace
    ensures table { result.table_id ≡ seat.log }
    ensures rests { result.me.1 ≡ [] }
    ensures idle { result.me.0.held ≡ None }
    ensures parts { result.me.0.parts ≡ 1 }
    ensures claims { result.me.0.claims ≡ seat.claims }
    ensures full { result.me.0.full ≡ full_number seat.full }
{
    let LogSeat {
        place,
        claims,
        full: _,
    } = seat;
    drop(claims);
    place
}

// One place that knows what all seats know.
fn gather(shared: &LogShared, seats: Vec<LogSeat>) -> LogPlace
    requires some { 0 < length seats.items }
    requires table { All (λ s. s.log ≡ shared.now.table_id) seats.items }
    requires words { shared.now.table_id.words ≡ 2 }
    ensures table { result.table_id ≡ shared.now.table_id }
    ensures idle { result.me.0.held ≡ None }
    ensures parts { result.me.0.parts ≡ length seats.items }
    ensures claims { result.me.0.claims ≡ claims_of_all seats.items }
    ensures full { result.me.0.full ≡ flat_map (λ s. full_number s.full) seats.items }
{
    let mut seats = seats;
    let Some(last) = seats.pop() else {
        unreachable!()
    };
    let mut whole = place_of(last);
    while let Some(seat) = seats.pop() {
        shared.join_seat::<Gathers>(&mut whole, place_of(seat));
    }
    whole
}

// The line in a slot.
fn line_in(slot: Slot) -> Line
    requires { HasLine slot }
    ensures { result ≡ line_in slot }
{
    match slot {
        Slot::Fresh(line) | Slot::Filled(line, _) => line,
        Slot::Out => unreachable!(),
    }
}

// All lines, by rising slot. There is room for them.
fn take_lines(closed: Closed<Slot, Global>, room: Vec<Line>) -> Vec<Line>
    requires full { IsFull closed.slots }
    requires lines { All HasLine (slots_items closed.slots) }
    requires room { (room.items ≡ []) × (slots_len closed.slots ≤ vec_capacity room) }
    ensures { result.items ≡ map line_in (slots_items closed.slots) }
{
    let mut closed = closed;
    let mut lines = room;
    for n in 0..closed.slot_count() {
        lines.push_reserved(line_in(closed.take(n)));
    }
    closed.free();
    lines
}

impl OpLog {
    /// Closes the log with all its seats, and gives its lines back, by rising slot. Each number below the tail was claimed by
    /// one seat, once. The line of a claim that was answered Done holds its entry, whole and with one candidate a word; the
    /// line of one that lost its power holds that, or has each word as at first, alone or with the entry's word as the newer
    /// candidate; and the other lines are as at first.
    pub fn close(self, seats: Vec<LogSeat>) -> Vec<Line>
        requires all { length seats.items ≡ self.seats }
        requires log { All (λ s. IsSeatOf self s) seats.items }
        ensures numbers { AreNumbered self seats.items }
        ensures lines { LeavesLines self (claims_of_all seats.items) result.items }
        ensures holds { AllWritten (claims_of_all seats.items)
            → HoldsClaims self.base (cells_of result.items) (pairs_of (claims_of_all seats.items)) (first_words self) }
    {
        let OpLog {
            table,
            base: _,
            room,
        } = self;
        let whole = gather(&table.shared, seats);
        take_lines(table.close_with(whole), room)
    }
}

/// Of a log that was closed: two claims have different numbers, and the claims' numbers are those below some number, which is
/// the number of lines where a seat found the log full.
pub fn claims_have_the_first_numbers()
    ensures { (log : LogView) (seats : List SeatView) → AreNumbered log seats → AreFirst log seats }
{}
