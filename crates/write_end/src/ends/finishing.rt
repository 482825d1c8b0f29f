//! A logged write finishes.
ghost use Rattle.std.specs.Prelude.{◌≡◌, ◌<◌, [], ◌∷◌, ◌++◌, length, vec_len, vec_capacity};
ghost use Rattle.in_place.specs.live_model.write_jobs.Loans.{ComeBack};
ghost use Rattle.in_place.specs.write_plan.file_table.Files.{runs_in, ChangesFile};
ghost use Rattle.in_place.specs.live_model.Overlays.{run_of};
ghost use Rattle.write_end.specs.Ends.{CanFinish, HasJob, HasWrite, LeavesFinished};
ghost use Rattle.write_end.specs.Landing.{HasLanded};
ghost use Rattle.posix_types.specs.declared.call.Mode.{Mode};

use file_overlay::Run;
use in_place::{FileTable, FilledJob, KSplit, OpenFiles, move_by, settle_blocks};
use layout_model::Draft;
use posix_types::Call;

// The run of an entry.
fn run_of(draft: &Draft) -> Run
    ensures { result ≡ run_of draft.now }
{
    Run {
        file_block: draft.file_block,
        staging: draft.staging,
        staging_block: draft.staging_block,
        count: u32::from(draft.count),
        order: draft.order,
    }
}

/// A write finishes whose entry stands in the slot of the log: its blocks come back with its words, the
/// offset of its handle moves, its run is laid over the file, which has its size then, and the pair of
/// slot and entry is one claim more. The job is one of this World, out, and of this call; there is room for
/// a claim. In strict mode its call has acted then; in sync mode but for its bytes before the first block
/// of the entry, which are written in place afterwards. It takes no memory and no step.
pub fn finish_write(
    k: &mut KSplit,
    tables: &mut OpenFiles,
    files: &mut FileTable,
    claims: &mut Vec<(u64, Draft)>,
    call: &Call,
    job: FilledJob,
    slot: u32,
)
    requires job { CanFinish k.old job tables.old.tables files.old call.now }
    requires room { vec_len claims.old < vec_capacity claims.old }
    ensures back { ComeBack job.loans k.old.cells k.new.cells }
    ensures same { k.new ≡ record k.old { cells = k.new.cells } }
    ensures claims { claims.new.items ≡ claims.old.items ++ (slot, job.draft) ∷ [] }
    ensures capacity { vec_capacity claims.new ≡ vec_capacity claims.old }
    ensures lays { ChangesFile job.draft.ino (runs_in files.old job.draft.ino ++ run_of job.draft ∷ [])
        job.draft.size files.old files.new }
    ensures lands { (has : HasJob k.old job) → HasWrite k.old job tables.old.tables files.old call.now has
        → HasLanded k.old job has slot k.new tables.new.tables files.new }
    ensures leaves { (has : HasJob k.old job) → HasWrite k.old job tables.old.tables files.old call.now has
        → has.s.mode ≡ Mode.Strict → LeavesFinished k.old job has slot k.new tables.new.tables files.new }
{
    let draft = *job.draft();
    move_by(tables, files, job.who(), call);
    settle_blocks(k, job.into_loans());
    files.lay(draft.ino, run_of(&draft), draft.size);
    claims.push_reserved((u64::from(slot), draft));
    let _lost = k.is_lost();
}
