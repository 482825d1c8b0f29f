//! The entry that a line is to hold.
ghost use Rattle.std.specs.Prelude.{◌≡◌, ◌≤◌, ◌<◌, ◌+◌, ◌^◌, length};
ghost use Rattle.block_counts.specs.declared.TheConstants.{LONGEST_FILE};
ghost use Rattle.layout_model.specs.declared.lines.Kind.TheVariants.{File};
ghost use Rattle.layout_model.specs.EntryLaws.{FitsDraft};
ghost use Rattle.live_model.specs.image_model.Volume.{inode};
ghost use Rattle.file_table.specs.Files.{runs_in};
ghost use Rattle.write_plan.specs.Drafts.{draft_in, order_behind};

use crate::asks::{FileTable, Target};
use file_overlay::Run;
use layout_model::Draft;
use live_model::{KSplit, StageRun};

// The order behind these runs of a file that has applied so much.
fn order_behind(applied: u64, runs: &[Run]) -> u64
    requires { order_behind applied runs.now < 2 ^ 64 }
    ensures { result ≡ order_behind applied runs.now }
{
    if runs.is_empty() {
        applied + 1
    } else {
        runs[runs.len() - 1].order + 1
    }
}

/// The entry of a write of `len` bytes at its target, which has this run of staging blocks. The target is
/// a file in use.
pub fn draft_of(k: &KSplit, files: &FileTable, target: Target, len: u32, run: &StageRun) -> Draft
    requires file { (inode k.now.volume target.ino).kind ≡ File }
    requires below { target.ino < length files.now.sizes }
    requires fits { target.start + len ≤ LONGEST_FILE }
    requires few { run.now.count ≤ 33 }
    requires order { order_behind (inode k.now.volume target.ino).applied
        (runs_in files.now target.ino) < 2 ^ 64 }
    ensures draft { result ≡ draft_in k.now.volume files.now target len run.now }
    ensures fields { FitsDraft result }
{
    match k.node(target.ino) {
        Some(node) => Draft {
            count: run.count as u16,
            order: order_behind(node.applied, files.overlay(target.ino).runs()),
            ino: target.ino,
            generation: node.generation,
            file_block: (target.start / 4096) as u32,
            staging: run.staging,
            staging_block: run.block,
            staging_generation: run.generation,
            size: target.size.max(target.start + u64::from(len)),
        },
        None => unreachable!(),
    }
}
