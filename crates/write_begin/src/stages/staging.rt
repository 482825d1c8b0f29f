//! The job of a write is made.
ghost use Rattle.std.specs.Prelude.{◌≡◌, ◌<◌, ◌+◌, ◌^◌, ◌≤◌, [], ◌++◌, true, false, length, map, vec_len, vec_capacity, IfOk, OnErr};
ghost use Rattle.write_jobs.specs.Jobs.{blocks_of};
ghost use Rattle.write_begin.specs.Stages.{IsJobOf, IsStaged, Ready};

use crate::laws;
use live_step_laws::{Collection, FileTable, StageRun};
use pm_lines::Loan;
use posix_types::{Data, Who};
use std::alloc::{AllocError, Global};
use write_jobs::{Job, KSplit, lend_blocks};
use write_plan::{Target, draft_of, words_of_write};

/// A write that is staged: its job, and the disk blocks that it was lent, in the order of the entry's blocks.
#[derive(Drop)]
pub struct StagedWrite {
    pub job: Job,
    pub blocks: Vec<u32>,
}

// The disk blocks of loans; there is room for them.
fn note_blocks(blocks: &mut Vec<u32>, loans: &[Loan])
    requires empty { blocks.old.items ≡ [] }
    requires room { length loans.now ≤ vec_capacity blocks.old }
    ensures { blocks.new.items ≡ blocks_of loans.now }
{
    for loan in loans {
        blocks.push_reserved(loan.block());
    }
}

/// Makes the job of a write of `bytes` at its target in a run of staging blocks, and lends its blocks. All
/// memory of the job is taken here.
///
/// # Errors
///
/// Out of memory, and then nothing changed.
pub fn stage_write(
    alloc: Global,
    k: &mut KSplit,
    files: &FileTable,
    who: Who,
    target: Target,
    bytes: &Data,
    run: StageRun,
) -> Result<StagedWrite, AllocError>
    requires { Ready k.old files.now who target bytes.now run }
    ensures job { IfOk result (λ made. IsJobOf k.old files.now who target (length bytes.now) run
        made.job made.blocks.items) }
    ensures staged { IfOk result (λ made. (ready : Ready k.old files.now who target bytes.now run)
        → IsStaged k.old k.new files.now who target bytes.now run made.job.words made.blocks.items
        ready) }
    ensures same { k.new ≡ record k.old { cells = k.new.cells } }
    ensures err { OnErr result (k.new ≡ k.old) }
{
    laws::a_job_begins_in_flight();
    laws::entries_are_the_next_ones();
    laws::words_spell_the_file();
    let mut blocks = Vec::with_capacity(alloc, run.count as usize)?;
    let draft = draft_of(k, files, target, bytes.len() as u32, &run);
    let mut collection = Collection::new(alloc);
    let words = words_of_write(alloc, k, files, &mut collection, target, run.count, bytes)?;
    let loans = lend_blocks(alloc, k, &draft)?;
    note_blocks(&mut blocks, &loans);
    let _lost = k.is_lost();
    Ok(StagedWrite {
        job: Job::of(who, draft, loans, words),
        blocks,
    })
}
