//! A logged write is given up.
ghost use Rattle.std.specs.Prelude.{◌≡◌, ◌+◌, length};
ghost use Rattle.in_place.specs.live_model.write_jobs.Loans.{ComeBack};
ghost use Rattle.in_place.specs.live_model.staging_files.GivesUp.{IsGivenBack};
ghost use Rattle.in_place.specs.live_model.Standing.{reserved_run};
ghost use Rattle.write_end.specs.Ends.{CanGiveUp, HasJob, LeavesGivenUp};

use in_place::{FilledJob, KSplit, StageRun, Staging, settle_blocks};
use layout_model::Draft;

// The staged run of an entry.
fn stage_run_of(draft: &Draft) -> StageRun
    ensures { result ≡ reserved_run draft.now }
{
    StageRun {
        staging: draft.staging,
        block: draft.staging_block,
        count: u32::from(draft.count),
        generation: draft.staging_generation,
    }
}

/// A write is given up: its blocks come back, and its staged run is kept as free again. The job is one of
/// this World, out. It takes no memory and no step.
pub fn give_up_write(k: &mut KSplit, staging: &mut Staging, job: FilledJob)
    requires { CanGiveUp k.old job staging.old }
    ensures back { ComeBack job.loans k.old.cells k.new.cells }
    ensures same { k.new ≡ record k.old { cells = k.new.cells } }
    ensures runs { length staging.new.out + 1 ≡ length staging.old.out }
    ensures run_back { IsGivenBack (reserved_run job.draft) staging.old staging.new }
    ensures leaves { (has : HasJob k.old job) → has.kept.staging ≡ staging.old
        → LeavesGivenUp k.old job has k.new staging.new }
{
    let draft = *job.draft();
    settle_blocks(k, job.into_loans());
    staging.give_back(stage_run_of(&draft));
    let _lost = k.is_lost();
    let _owed = staging.owed();
}
