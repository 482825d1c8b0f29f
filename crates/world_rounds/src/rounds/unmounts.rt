//! The end of a run.
ghost use Rattle.std.specs.Prelude.{◌≡◌, ◌≤◌, ◌+◌, ◌++◌, ◌^◌, [], false, length, map};
ghost use Rattle.std.specs.Vec.{vec_capacity};
ghost use Rattle.world_parts.specs.log_checkpoint.fsync_relink.Publishes.{IsPublishPaid};
ghost use Rattle.world_parts.specs.pm_model.Powers.{Steps};
ghost use Rattle.world_parts.specs.Answers.{IsEnded};
ghost use Rattle.world_parts.specs.world_view_laws.Lines.{HoldTheClaims};
ghost use Rattle.world_parts.specs.world_view_laws.Rounds.{MayUnmount};
ghost use Rattle.world_parts.specs.world_view_laws.write_end.Ends.{begun_by};
ghost use Rattle.world_parts.specs.Seen.{seen, unfinished_of, IsKept};
ghost use Rattle.world_rounds.specs.Gathered.{EndsWith, HasGathered};

use crate::job_ends::{Commit, Crashed, Ended, NoMemory, Parts, gather};
use crate::laws;
use crate::rounds::losses::calls_of;
use pm_lines::{Line, Power};
use std::alloc::{AllocError, Global};

// The lines come home, and all that is staged is published.
fn gather_home(
    p: &mut Parts,
    alloc: Global,
    lines: Vec<Line>,
    power: &mut Power,
) -> Result<Commit, AllocError>
    requires kept { IsKept p.old }
    requires awake { p.old.lost ≡ false }
    requires none_out { p.old.pending.items ≡ [] }
    requires holds { HoldTheClaims (seen p.old) lines.items }
    ensures steps { Steps (2 ^ 26) power.old power.new }
    ensures paid { IsPublishPaid power.new result }
    ensures gathered { HasGathered p.old p.new lines.items result }
    ensures rest { p.new
        ≡ record p.old { k = p.new.k; staging = p.new.staging; files = p.new.files } }
{
    laws::the_lines_of_a_round_come_home();
    p.k.put_log(lines);
    let _lost = p.k.is_lost();
    gather(alloc, &mut p.k, &mut p.staging, &mut p.files, power)
}

// What is left: the device, the calls that returned, and those that had begun and did not.
fn left_of(p: Parts) -> Crashed
    requires empty { p.spare.items ≡ [] }
    requires room { length p.pending.items + length (unfinished_of p.unfinished)
        ≤ vec_capacity p.spare }
    ensures pm { result.pm ≡ p.k.cells }
    ensures history { result.history ≡ p.history }
    ensures unfinished { result.unfinished.items
        ≡ map begun_by p.pending.items ++ unfinished_of p.unfinished }
{
    let pm = p.k.into_pm();
    let unfinished = calls_of(p.spare, p.pending, p.unfinished);
    Crashed {
        pm,
        history: p.history,
        unfinished,
    }
}

// How the run ends with what is left.
fn end_with(commit: Result<Commit, AllocError>, left: Crashed) -> Result<Ended, NoMemory>
    ensures { EndsWith commit left result }
{
    match commit {
        Ok(Commit::Done) => Ok(Ended::Whole {
            pm: left.pm,
            history: left.history,
        }),
        Ok(Commit::PowerLost) => Ok(Ended::Lost(left)),
        Err(_) => Err(NoMemory {}),
    }
}

/// The end of a run while the power is on: the lines come home, all that is staged is published, and the device is left,
/// whose log is empty where it was done.
///
/// # Errors
///
/// Out of memory: all is dropped.
///
/// # Steps
///
/// At most 2^26.
pub fn end_run(
    p: Parts,
    alloc: Global,
    lines: Vec<Line>,
    power: &mut Power,
) -> Result<Ended, NoMemory>
    requires kept { IsKept p }
    requires awake { p.lost ≡ false }
    requires may { MayUnmount (seen p) lines.items }
    ensures steps { Steps (2 ^ 26) power.old power.new }
    ensures ended { IsEnded (seen p) power.new result }
{
    laws::an_unmount_ends_a_run();
    let mut p = p;
    let commit = gather_home(&mut p, alloc, lines, power);
    end_with(commit, left_of(p))
}
