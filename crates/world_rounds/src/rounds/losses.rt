//! What a power loss leaves of a World.
ghost use Rattle.std.specs.Prelude.{◌≡◌, ◌≤◌, ◌+◌, ◌++◌, ◌/◌, ℕ, [], true, length, map, if◌then◌else◌, vec_capacity};
ghost use Rattle.world_parts.specs.list_laws.Members.{In};
ghost use Rattle.world_parts.specs.pm_model.Cells.{cell, is_lent};
ghost use Rattle.world_parts.specs.pm_model.Parts.{Part};
ghost use Rattle.world_parts.specs.world_view_laws.Handed.{loans_filled, loans_out, AreOneEach};
ghost use Rattle.world_parts.specs.world_view_laws.write_end.Blocks.{ComeHome};
ghost use Rattle.world_parts.specs.world_view_laws.Losses.{KeepsActed, MayCrash};
ghost use Rattle.world_parts.specs.world_view_laws.Rounds.{IsLeft};
ghost use Rattle.world_parts.specs.world_view_laws.write_end.Ends.{begun_by};
ghost use Rattle.world_parts.specs.Seen.{seen, unfinished_of, IsKept};
ghost use Rattle.world_parts.specs.write_jobs.Jobs.{FilledView, HoldWords};

use crate::job_ends::{Crashed, FilledJob, Job, JobOut, Parts, Unfinished, put_lines};
use pm_lines::{Line, Loan, Pm};
use posix_types::{Call, Who};

// Blocks come back, no two loans of one place.
fn settle_loans(pm: &mut Pm, loans: Vec<Loan>)
    requires out { (loan : Part) (i : ℕ) → In loan loans.items → i / 512 ≡ loan.place
        → is_lent (cell pm.old i) ≡ true }
    requires each { AreOneEach loans.items }
    ensures { ComeHome loans.items pm.old pm.new }
{
    for loan in loans {
        pm.settle(loan);
    }
}

// The blocks of jobs come back.
fn settle_out(pm: &mut Pm, jobs: Vec<Job>)
    requires out { (loan : Part) (i : ℕ) → In loan (loans_out jobs.items) → i / 512 ≡ loan.place
        → is_lent (cell pm.old i) ≡ true }
    requires each { AreOneEach (loans_out jobs.items) }
    ensures { ComeHome (loans_out jobs.items) pm.old pm.new }
{
    for job in jobs {
        settle_loans(pm, job.into_loans());
    }
}

// The blocks of filled jobs come back, which hold their words.
fn settle_filled(pm: &mut Pm, jobs: Vec<FilledJob>)
    requires out { (loan : Part) (i : ℕ) → In loan (loans_filled jobs.items) → i / 512 ≡ loan.place
        → is_lent (cell pm.old i) ≡ true }
    requires each { AreOneEach (loans_filled jobs.items) }
    ensures home { ComeHome (loans_filled jobs.items) pm.old pm.new }
    ensures holds { (job : FilledView) → In job jobs.items → HoldWords job.loans job.words }
{
    for job in jobs {
        settle_loans(pm, job.into_loans());
    }
}

// The calls that had begun and did not return, in the order of their beginning. There is room for them.
pub(crate) fn calls_of(
    spare: Vec<(Who, Call)>,
    pending: Vec<JobOut>,
    last: Option<Unfinished>,
) -> Vec<(Who, Call)>
    requires empty { spare.items ≡ [] }
    requires room { length pending.items + length (unfinished_of last) ≤ vec_capacity spare }
    ensures { result.items ≡ map begun_by pending.items ++ unfinished_of last }
{
    let mut calls = spare;
    for job in pending {
        calls.push_reserved((job.who, job.call));
    }
    if let Some(call) = last {
        calls.push_reserved((call.who, call.call));
    }
    calls
}

// The lines that are to be put back: those of the round, or those that came home after the loss.
fn lines_back(lines_out: bool, lines: Vec<Line>, home: Vec<Line>) -> Vec<Line>
    ensures { result.items ≡ (if lines_out then lines.items else home.items) }
{
    if lines_out { lines } else { home }
}

/// What is left of a World that lost its power, once lines and blocks are put back as they are. The calls of jobs that
/// cannot have acted need not be among those that the device keeps the promise for.
pub fn crash_lost(p: Parts, lines: Vec<Line>, out: Vec<Job>, filled: Vec<FilledJob>) -> Crashed
    requires kept { IsKept p }
    requires gone { p.lost ≡ true }
    requires may { MayCrash (seen p) lines.items out.items filled.items }
    ensures left { IsLeft (seen p) result.pm result.history.items result.unfinished.items }
    ensures acted { KeepsActed (seen p) lines.items filled.items result.pm }
{
    let _data = p.geometry.first_data();
    let first = p.geometry.log_line(0);
    let mut pm = p.k.into_pm();
    settle_out(&mut pm, out);
    settle_filled(&mut pm, filled);
    put_lines(&mut pm, first, lines_back(p.lines_out, lines, p.home));
    Crashed {
        pm,
        history: p.history,
        unfinished: calls_of(p.spare, p.pending, p.unfinished),
    }
}
