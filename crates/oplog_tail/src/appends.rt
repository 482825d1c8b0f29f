//! Appends: a claim of the next number by one atomic addition, and the writing of its line outside every lock.
ghost use Rattle.std.specs.Prelude.{◌≡◌, ◌+◌, ◌≤◌, ◌<◌, ◌^◌, [], ◌∷◌, ℕ, if◌then◌else◌};
ghost use mathlib.Core.Option.{none};
ghost use Rattle.atomic_table.specs.Table.{step};
ghost use Rattle.oplog_entry.specs.image_model.pm_model.Parts.{Part};
ghost use Rattle.oplog_entry.specs.image_model.pm_model.Powers.{is_on, Steps};
ghost use Rattle.oplog_tail.specs.Answers.{Answers};
ghost use Rattle.oplog_entry.specs.EntryLines.{IsSingle};
ghost use Rattle.oplog_tail.specs.Logs.{capacity, IsSeatOf};
ghost use Rattle.oplog_tail.specs.Steps.{claimed};
ghost use Rattle.oplog_tail.specs.Views.{settled};
ghost use Rattle.oplog_tail.specs.declared.views.Opened.{Opened};

use crate::logs::OpLog;
use crate::seats::LogSeat;
use crate::table::{Claims, LogPlace, LogShared, Marks};
use crate::views::Slot;
use crate::writing::write_entry;
use layout_model::Draft;
use oplog_entry::{Full, Mark};
use pm_lines::{Line, Power};

/// What shows that an entry stands whole and durable in its slot. Only an append makes one.
#[derive(Clone, Copy)]
pub struct Receipt {
    slot: u32,
    draft: Draft,
}

impl Receipt {
    /// The slot of the entry.
    pub fn slot(&self) -> u32
        ensures { result ≡ self.now.slot }
    {
        self.slot
    }

    /// The entry.
    pub fn draft(&self) -> &Draft
        ensures { result.now ≡ self.now.draft }
    {
        &self.draft
    }
}

/// What an append answers.
#[derive(Clone, Copy)]
pub enum Appended {
    /// The entry stands whole and durable in its slot.
    Done(Receipt),
    /// There was no line for the number that was claimed.
    Full(Full),
    /// The power was lost before the append came to its end.
    PowerLost,
}

// Claims the next number, and takes its line where there is one.
fn claim(shared: &LogShared, place: &mut LogPlace) -> u64
    requires table { (place.old.table_id ≡ shared.now.table_id) × (shared.now.table_id.words ≡ 2) }
    requires idle { place.old.me.0.held ≡ None }
    requires unfilled { place.old.me.0.full ≡ [] }
    requires alone { place.old.me.0.parts ≡ 1 }
    ensures table { place.new.table_id ≡ place.old.table_id }
    ensures claimed { claimed (step shared.now.table_id.slots 0 1 0 none) place.old.me result place.new.me }
{
    shared.fetch_add::<Claims>(place, 0, 1)
}

// The line of a claim, out of its slot.
fn take_line(shared: &LogShared, place: &mut LogPlace, number: u64) -> Line
    requires table { place.old.table_id ≡ shared.now.table_id }
    requires line { (line : Part) × (place.old.me.1 ≡ (number, Slot.Fresh line) ∷ []) }
    ensures table { place.new.table_id ≡ place.old.table_id }
    ensures line { place.old.me.1 ≡ (number, Slot.Fresh result) ∷ [] }
    ensures out { place.new.me ≡ (place.old.me.0, (number, Slot.Out) ∷ []) }
{
    let Slot::Fresh(line) = shared.exchange(place, number as usize, Slot::Out) else {
        unreachable!()
    };
    line
}

// Puts the line of a claim back into its slot.
fn put_line(shared: &LogShared, place: &mut LogPlace, number: u64, line: Line, draft: Draft)
    requires table { place.old.table_id ≡ shared.now.table_id }
    requires out { place.old.me.1 ≡ (number, Slot.Out) ∷ [] }
    ensures table { place.new.table_id ≡ place.old.table_id }
    ensures line { place.new.me ≡ (place.old.me.0, (number, Slot.Filled line draft) ∷ []) }
{
    drop(shared.exchange(place, number as usize, Slot::Filled(line, draft)));
}

// Writes the line of a claim, puts it back and marks it. Says whether the power lasted.
fn fill(
    shared: &LogShared,
    place: &mut LogPlace,
    number: u64,
    base: u64,
    power: &mut Power,
    draft: &Draft,
) -> bool
    requires table { (place.old.table_id ≡ shared.now.table_id) × (shared.now.table_id.words ≡ 2) }
    requires base { (base ≡ shared.now.key.base) × (base + number < 2 ^ 64) }
    requires line { (line : Part) × IsSingle line.cells
        × (place.old.me.1 ≡ (number, Slot.Fresh line) ∷ [])
        × (place.old.me.0.held ≡ Some (record { number = number; line = line })) }
    ensures table { place.new.table_id ≡ place.old.table_id }
    ensures on { result ≡ is_on power.new }
    ensures settled { place.new.me ≡ (
      settled place.old.me.0 number draft.now
          (if result then Mark.Written else Mark.Lost),
      [],
    ) }
    ensures steps { Steps 10 power.old power.new }
{
    let mut line = take_line(shared, place, number);
    let on = write_entry(&mut line, power, draft, base + number);
    put_line(shared, place, number, line, *draft);
    shared.fetch_add::<Marks>(place, 1, u64::from(on));
    on
}

impl OpLog {
    /// Claims the next number, and where the log has a line for it, writes the entry there, whole and durable, outside every
    /// lock. The entry's sequence number is the log's base plus the number. Takes at most 10 device steps, no memory, and
    /// waits for nobody. A seat that found the log full gives that answer again, and changes nothing.
    pub fn append(&self, seat: &mut LogSeat, power: &mut Power, draft: &Draft) -> Appended
        requires log { IsSeatOf self.now seat.old }
        ensures log { seat.new.log ≡ seat.old.log }
        ensures answer { Answers (capacity self.now) draft.now seat.old power.old seat.new power.new result }
        ensures again { (full : Full) → seat.old.full ≡ Some full → (result ≡ Appended.Full full) × (seat.new ≡ seat.old) }
        ensures steps { Steps 10 power.old power.new }
    {
        let shared = &self.table.shared;
        if let Some(full) = seat.full {
            return Appended::Full(full);
        }
        let number = claim(shared, &mut seat.place);
        let capacity = self.table.slot_count() as u64;
        if number >= capacity {
            let full = Full {
                claimed: number,
                capacity,
            };
            seat.full = Some(full);
            return Appended::Full(full);
        }
        let written = fill(shared, &mut seat.place, number, self.base, power, draft);
        seat.claims.push_reserved((number, *draft));
        if written {
            Appended::Done(Receipt {
                slot: number as u32,
                draft: *draft,
            })
        } else {
            Appended::PowerLost
        }
    }
}
