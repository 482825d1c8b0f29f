//! The workers of a round: each has a pass of the turn, a seat of the log and a power of its own.
ghost use Rattle.std.specs.Prelude.{◌≡◌, ◌<◌, ◌≤◌, [], length, vec_capacity, vec_len, IfOk};
ghost use Rattle.split_threads.specs.Dealt.{AreDealt, fresh_power};

use crate::turns::HandPass;
use crate::working::Own;
use oplog_tail::LogSeat;
use pm_lines::Power;
use posix_types::Who;
use std::alloc::{AllocError, Global};

/// The workers of a round: those of the threads, the highest first, and that of the set-up.
#[derive(Drop)]
pub(crate) struct Dealt {
    pub owns: Vec<Own>,
    pub setup: Own,
}

/// A power for so many device steps, or for all.
pub fn power_for(stop: Option<u64>) -> Power
    ensures { result ≡ fresh_power stop }
{
    match stop {
        Some(steps) => Power::after(steps),
        None => Power::always(),
    }
}

// Deals passes and seats, of each one for every thread and one more. There is room for the threads' workers.
fn deal_into(room: Vec<Own>, passes: Vec<HandPass>, seats: Vec<LogSeat>, stop: Option<u64>) -> Dealt
    requires some { 0 < length passes.items }
    requires few { length passes.items ≤ 9 }
    requires seats { length seats.items ≡ length passes.items }
    requires room { (room.items ≡ []) × (length passes.items ≤ vec_capacity room) }
    ensures { AreDealt passes.items seats.items stop result }
{
    let mut passes = passes;
    let mut seats = seats;
    let mut owns = room;
    let (Some(pass), Some(seat)) = (passes.pop(), seats.pop()) else {
        unreachable!()
    };
    let setup = Own {
        who: Who::Setup,
        pass,
        seat,
        power: power_for(stop),
    };
    while let Some(pass) = passes.pop() {
        let Some(seat) = seats.pop() else {
            unreachable!()
        };
        let who = Who::Thread(passes.len() as u32);
        let power = power_for(stop);
        owns.push_reserved(Own {
            who,
            pass,
            seat,
            power,
        });
    }
    Dealt { owns, setup }
}

/// Deals passes and seats: the last ones go to the set-up's worker, and each other to that of the thread of its place.
pub(crate) fn deal(
    alloc: Global,
    passes: Vec<HandPass>,
    seats: Vec<LogSeat>,
    stop: Option<u64>,
) -> Result<Dealt, AllocError>
    requires some { 0 < length passes.items }
    requires few { length passes.items ≤ 9 }
    requires seats { length seats.items ≡ length passes.items }
    ensures { IfOk result (AreDealt passes.items seats.items stop) }
{
    let Ok(room) = Vec::with_capacity(alloc, passes.len()) else {
        drop(passes);
        drop(seats);
        return Err(AllocError);
    };
    Ok(deal_into(room, passes, seats, stop))
}
