//! A round is opened: the log's lines go out into a log that threads share, and the World under a turn.
ghost use Rattle.std.specs.Prelude.{◌≡◌, ◌≤◌, true, false, replicate, IfOk};
ghost use Rattle.oplog_tail.specs.Logs.{at_first};
ghost use Rattle.thread_laws.specs.world_view_laws.Rounds.{IsRoundBegun};
ghost use Rattle.thread_laws.specs.world_view_laws.Views.{WorldView};
ghost use Rattle.split_threads.specs.Opens.{IsOpenedRound};
ghost use Rattle.split_threads.specs.Rounds.{IsBetweenRounds};

use crate::dealing::{Dealt, deal};
use crate::turns::{Held, WorldTurn};
use oplog_tail::{LogSeat, OpLog};
use pm_lines::Power;
use split_world::World;
use std::alloc::Global;
use thread_laws::NoMemory;

/// What a round is opened with.
#[derive(Drop)]
pub(crate) struct Opened {
    pub turn: WorldTurn,
    pub log: OpLog,
    pub dealt: Dealt,
}

// The lines of a World go out, into a log with so many seats.
fn open_log(alloc: Global, world: &mut World, seats: u32) -> Result<(OpLog, Vec<LogSeat>), NoMemory>
    requires seats { (1 ≤ seats) × (seats ≤ 9) }
    requires usable { world.old.usable ≡ true }
    requires home { world.old.lines_out ≡ false }
    requires awake { world.old.lost ≡ false }
    ensures begun { IfOk result (λ made. IsRoundBegun world.old world.new made.0.lines made.0.base) }
    ensures count { IfOk result (λ made. made.0.seats ≡ seats) }
    ensures seats { IfOk result (λ made. made.1.items ≡ replicate seats (at_first made.0)) }
{
    let (lines, base) = world.begin_round(alloc)?;
    Ok(OpLog::open(alloc, lines, base, seats)?)
}

/// Opens a round. Each worker has so many steps of its own, or power for all.
pub(crate) fn open_round(
    alloc: Global,
    world: World,
    power: Power,
    stop: Option<u64>,
) -> Result<Opened, NoMemory>
    requires { (first : WorldView) × IsBetweenRounds first stop world power }
    ensures { IfOk result (IsOpenedRound world power) }
{
    let mut world = world;
    let count = world.threads() + 1;
    let Ok((log, seats)) = open_log(alloc, &mut world, count) else {
        drop(world);
        return Err(NoMemory {});
    };
    let Ok((turn, passes)) = WorldTurn::open(alloc, Held::Here(world, power), count) else {
        drop(log);
        drop(seats);
        return Err(NoMemory {});
    };
    let Ok(dealt) = deal(alloc, passes, seats, stop) else {
        drop(turn);
        drop(log);
        return Err(NoMemory {});
    };
    Ok(Opened { turn, log, dealt })
}
