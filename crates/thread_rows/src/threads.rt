//! Eight threads fill a log of 1,024 lines at once.
ghost use Rattle.std.specs.Prelude.{◌≡◌, All};
ghost use Rattle.oplog_tail.specs.Logs.{IsSeatOf};

use crate::lines::{draft, lines_of};
use oplog_entry::{Draft, scan};
use oplog_tail::{Appended, LogSeat, OpLog};
use pm_lines::Power;
use std::alloc::{AllocError, Global};
use std::test::Fail;
use std::thread;
use std::thread::Threads;

const BASE: u64 = 5;

const LINES: u64 = 1_024;

const SEATS: u32 = 8;

const APPENDS: u64 = 200;

// So many appends of one thread, each of a draft of its own.
fn append_all(log: &OpLog, thread: usize, seat: &mut LogSeat)
    requires { IsSeatOf log.now seat.old }
    ensures { seat.new.log ≡ seat.old.log }
{
    let mut power = Power::always();
    for append in 0..APPENDS {
        log.append(seat, &mut power, &draft(thread as u64, append));
    }
}

// The threads append at once, each with a seat of its own.
fn append_at_once<R: Threads + Sync>(rt: &R, log: &OpLog, seats: &mut [LogSeat])
    requires { All (λ s. IsSeatOf log.now s) seats.old }
    ensures { All (λ s. IsSeatOf log.now s) seats.new }
{
    thread::for_each_mut(
        rt,
        seats,
        8,
        &|thread: usize, seat: &mut LogSeat|
            requires { IsSeatOf log.now seat.now }
            ensures { seat.exit.now.log ≡ seat.entry.now.log }
        { append_all(log, thread, seat) },
    );
}

// The draft of each slot that was claimed, by the seats' claims. None where two claims have one slot, or one lies
// past the last line.
fn by_slots(alloc: Global, seats: &[LogSeat]) -> Result<Option<Vec<Option<Draft>>>, AllocError> {
    let mut drafts = Vec::new(alloc);
    for _ in 0..LINES {
        drafts.push(None)?;
    }
    for seat in seats {
        for (slot, draft) in seat.claims() {
            let Some(place) = drafts.get_mut(*slot as usize) else {
                return Ok(None);
            };
            if place.is_some() {
                return Ok(None);
            }
            *place = Some(*draft);
        }
    }
    Ok(Some(drafts))
}

// Whether a further append with the seat is Full, with a number past the last line that is below the lines and seats.
fn is_full(log: &OpLog, seat: &mut LogSeat) -> bool
    requires { IsSeatOf log.now seat.old }
    ensures { seat.new.log ≡ seat.old.log }
{
    let mut power = Power::always();
    match log.append(seat, &mut power, &draft(9, 9)) {
        Appended::Full(full) => full.capacity == LINES
            && (LINES..LINES + u64::from(SEATS)).contains(&full.claimed),
        Appended::Done(_) | Appended::PowerLost => false,
    }
}

// The same for each seat.
fn all_full(log: &OpLog, seats: &mut [LogSeat]) -> bool
    requires { All (λ s. IsSeatOf log.now s) seats.old }
    ensures { All (λ s. IsSeatOf log.now s) seats.new }
{
    let mut is_so = true;
    for k in 0..seats.len() {
        if !is_full(log, &mut seats[k]) {
            is_so = false;
        }
    }
    is_so
}

// Whether each slot is found, in order, with its draft.
fn are_found(drafts: &[Option<Draft>], found: &[(u64, Draft)]) -> bool {
    for (slot, draft) in drafts.iter().enumerate() {
        let Some(draft) = draft else {
            return false;
        };
        if found.get(slot) != Some(&(slot as u64, *draft)) {
            return false;
        }
    }
    found.len() == drafts.len()
}

// Each slot was claimed once, the lines hold just the claims, and each seat found the log full.
fn is_as_stated<R: Threads + Sync>(rt: &R, alloc: Global) -> Result<bool, AllocError> {
    let (log, mut seats) = OpLog::open(alloc, lines_of(alloc, LINES)?, BASE, SEATS)?;
    append_at_once(rt, &log, seats.as_mut_slice());
    let Some(drafts) = by_slots(alloc, seats.as_slice())? else {
        return Ok(false);
    };
    let are_full = all_full(&log, seats.as_mut_slice());
    let lines = log.close(seats);
    let found = scan(alloc, lines.as_slice(), BASE)?;
    Ok(are_full && are_found(drafts.as_slice(), found.as_slice()))
}

#[test]
fn eight_threads_fill_the_log(rt: HostRuntime) -> Result<(), Fail> {
    assert!(rt; is_as_stated(&rt, rt.alloc())?);
    Ok(())
}
