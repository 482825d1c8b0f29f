//! The end of a round: turn and log are closed, and a Checkpoint, an unmount or a crash comes.
ghost use Rattle.std.specs.Prelude.{◌≡◌, ◌≢◌, ◌≤◌, ℕ, List, [], true, false, length, IfOk, None};
ghost use Rattle.oplog_tail.specs.Logs.{LogView};
ghost use Rattle.posix_types.specs.declared.call.Who as whos;
ghost use Rattle.thread_laws.specs.world_view_laws.Losses.{MayCrash};
ghost use Rattle.thread_laws.specs.world_view_laws.Rounds.{IsLeft, MayCheckpoint};
ghost use Rattle.thread_laws.specs.world_view_laws.Views.{next_of, WorldView};
ghost use Rattle.thread_laws.specs.world_view_laws.pm_model.Powers.{Supply};
ghost use Rattle.thread_laws.specs.Returned.{filled_jobs_left, HaveStopped, HaveWorkers, IsClosed, jobs_left, Returned};
ghost use Rattle.thread_laws.specs.Stands.{IsInRound};
ghost use Rattle.split_threads.specs.Parted.{ArePartedFrom, CanEndRound, HasRoom, IsPartedMore, IsRoom};
ghost use Rattle.split_threads.specs.Rounds.{HasCheckpointed, IsTurned, IsTurnedFrom};
ghost use Rattle.split_threads.specs.declared.starting.Back as backs;

use crate::starting::Back;
use crate::turns::{HandPass, Held, WorldTurn};
use oplog_tail::{LogSeat, OpLog, claims_have_the_first_numbers};
use pm_lines::{Line, Power};
use posix_types::Who;
use split_world::{Crashed, Ended, Ready, World};
use std::alloc::{AllocError, Global};
use thread_laws::{Commit, FilledJob, Job, NoMemory, Worked, a_round_ends_as_it_may};

/// How a round turns out: the next one may begin, with the power that is left; or the run has ended.
#[derive(Drop)]
pub(crate) enum Turned {
    Next(World, Power),
    Ended(Ended),
}

/// What came back of all workers, parted: passes and seats, and the jobs that were left, to be filled and filled.
#[derive(Drop)]
pub(crate) struct Parted {
    passes: Vec<HandPass>,
    seats: Vec<LogSeat>,
    jobs: Vec<Job>,
    filled: Vec<FilledJob>,
}

// Room for so many of each.
fn room_for(alloc: Global, count: usize) -> Result<Parted, AllocError>
    requires { count ≤ 9 }
    ensures { IfOk result (λ room. IsRoom count room) }
{
    let passes = Vec::with_capacity(alloc, count)?;
    let Ok(seats) = Vec::with_capacity(alloc, count) else {
        drop(passes);
        return Err(AllocError);
    };
    let Ok(jobs) = Vec::with_capacity(alloc, count) else {
        drop(passes);
        drop(seats);
        return Err(AllocError);
    };
    let Ok(filled) = Vec::with_capacity(alloc, count) else {
        drop(passes);
        drop(seats);
        drop(jobs);
        return Err(AllocError);
    };
    Ok(Parted {
        passes,
        seats,
        jobs,
        filled,
    })
}

// One that came back is put to those before.
fn part_one(parted: &mut Parted, back: Back)
    requires { HasRoom parted.old }
    ensures { IsPartedMore back parted.old parted.new }
{
    let Back { own, worked } = back;
    parted.passes.push_reserved(own.pass);
    parted.seats.push_reserved(own.seat);
    match worked {
        Worked::Ended => {}
        Worked::Job(job) => parted.jobs.push_reserved(job),
        Worked::Filled(job) => parted.filled.push_reserved(job),
    }
}

// All of them. There is room.
fn part_backs(backs: Vec<Back>, room: Parted) -> Parted
    requires { IsRoom (length backs.items) room }
    ensures { ArePartedFrom backs.items result }
{
    let mut parted = room;
    for back in backs {
        part_one(&mut parted, back);
    }
    parted
}

// Whether a caller is at the end of its script. No job is out.
fn is_at_end(world: &World, who: Who) -> bool
    requires usable { world.now.usable ≡ true }
    requires none_out { world.now.pending ≡ [] }
    ensures yes { result ≡ true → next_of world.now who ≡ None }
    ensures no { result ≡ false → next_of world.now who ≢ None }
{
    match world.ready(who) {
        Ready::ScriptEnd => true,
        Ready::Yes | Ready::Busy { .. } | Ready::RoundOver | Ready::Out => false,
    }
}

// Whether a caller has a call left. No job is out.
fn has_calls_left(world: &World) -> bool
    requires usable { world.now.usable ≡ true }
    requires none_out { world.now.pending ≡ [] }
    ensures some { result ≡ true → (who : whos.Who) × (next_of world.now who ≢ None) }
    ensures none { result ≡ false → (who : whos.Who) → next_of world.now who ≡ None }
{
    if !is_at_end(world, Who::Setup) {
        return true;
    }
    for number in 0..world.threads() {
        if !is_at_end(world, Who::Thread(number)) {
            return true;
        }
    }
    false
}

// A crash of a World that lost its power, with all lines at home and no job out.
fn crash_bare(alloc: Global, world: World) -> Crashed
    requires usable { world.usable ≡ true }
    requires may { MayCrash world [] [] [] }
    ensures { IsLeft world result.pm result.history.items result.unfinished.items }
{
    world.crash(Vec::new(alloc), Vec::new(alloc), Vec::new(alloc))
}

// What comes behind a Checkpoint: the next round, or a crash where that lost its power.
fn turned_by(alloc: Global, commit: Commit, world: World, power: Power) -> Turned
    requires { (w : WorldView) × (before : Supply) × HasCheckpointed w before world power commit }
    ensures { (w : WorldView) (before : Supply) → HasCheckpointed w before world power commit → IsTurned w before result }
{
    a_round_ends_as_it_may();
    match commit {
        Commit::Done => Turned::Next(world, power),
        Commit::PowerLost => {
            let _acts = world.acts();
            Turned::Ended(Ended::Lost(crash_bare(alloc, world)))
        }
    }
}

// The end of a round with calls left: a Checkpoint, or a crash where that lost its power.
fn end_lap(alloc: Global, world: World, power: Power, lines: Vec<Line>) -> Result<Turned, NoMemory>
    requires in_round { IsInRound world power }
    requires awake { world.lost ≡ false }
    requires may { MayCheckpoint world lines.items }
    ensures { IfOk result (IsTurned world power) }
{
    let mut world = world;
    let mut power = power;
    let Ok(commit) = world.checkpoint(alloc, lines, &mut power) else {
        drop(world);
        return Err(NoMemory {});
    };
    Ok(turned_by(alloc, commit, world, power))
}

// The end of a World that came out of a turn, with the lines of the closed log and the jobs that were left: a crash where the
// power was lost; a Checkpoint where a caller has a call left; and else an unmount.
fn end_world(
    alloc: Global,
    world: World,
    power: Power,
    lines: Vec<Line>,
    jobs: Vec<Job>,
    filled: Vec<FilledJob>,
) -> Result<Turned, NoMemory>
    requires { (log : LogView) × (parts : List Returned) × IsClosed world power log lines.items parts
        × (jobs.items ≡ jobs_left parts) × (filled.items ≡ filled_jobs_left parts)
        × HaveStopped parts × HaveWorkers world parts × (1 ≤ world.geometry.log) }
    ensures { IfOk result (IsTurned world power) }
{
    a_round_ends_as_it_may();
    if world.is_lost() {
        return Ok(Turned::Ended(Ended::Lost(world.crash(lines, jobs, filled))));
    }
    drop(jobs);
    drop(filled);
    if has_calls_left(&world) {
        return end_lap(alloc, world, power, lines);
    }
    let _acts = world.acts();
    let _items = world.history();
    let mut power = power;
    let ended = world.unmount(alloc, lines, &mut power)?;
    Ok(Turned::Ended(ended))
}

// Closes turn and log with what came back, parted, and ends the World. Where that is gone, memory had run out.
fn close_round(
    alloc: Global,
    turn: WorldTurn,
    log: OpLog,
    parted: Parted,
) -> Result<Turned, NoMemory>
    requires { (w : WorldView) × (power : Supply) × (backs : List backs.Back)
        × CanEndRound w power turn log backs × ArePartedFrom backs parted }
    ensures { (w : WorldView) (power : Supply) (backs : List backs.Back)
        → CanEndRound w power turn log backs → ArePartedFrom backs parted
        → IfOk result (IsTurnedFrom w power) }
{
    claims_have_the_first_numbers();
    let Parted {
        passes,
        seats,
        jobs,
        filled,
    } = parted;
    let lines = log.close(seats);
    match turn.close(passes) {
        Held::Gone => Err(NoMemory {}),
        Held::Here(world, power) => end_world(alloc, world, power, lines, jobs, filled),
    }
}

/// Closes turn and log with all that came back, and ends the round of the World.
pub(crate) fn end_round(
    alloc: Global,
    turn: WorldTurn,
    log: OpLog,
    backs: Vec<Back>,
) -> Result<Turned, NoMemory>
    requires few { length backs.items ≤ 9 }
    requires can { (w : WorldView) × (power : Supply) × CanEndRound w power turn log backs.items }
    ensures { (w : WorldView) (power : Supply) → CanEndRound w power turn log backs.items
        → IfOk result (IsTurnedFrom w power) }
{
    let Ok(room) = room_for(alloc, backs.len()) else {
        drop(turn);
        drop(log);
        drop(backs);
        return Err(NoMemory {});
    };
    close_round(alloc, turn, log, part_backs(backs, room))
}
