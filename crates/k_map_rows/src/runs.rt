//! Runs of staging blocks: which blocks they are, how many stay free, and when there is no room.
ghost use Rattle.std.specs.Prelude.{◌≡◌, ◌≤◌, true, [], IfOk, OnOk};
ghost use Rattle.staging_files.specs.image_model.Volume.{extents};
ghost use Rattle.staging_files.specs.GivesUp.{nothing_staged};
ghost use Rattle.staging_files.specs.Keeps.{Agrees};
ghost use Rattle.k_map_tests.specs.Calls.{IsFresh};
ghost use Rattle.k_map_rows.specs.Calm.{IsCalm, IsCalmAfter, IsCalmDone};

use crate::reading::{first_word, numbers};
use k_check::{Commit, Geometry};
use k_map_tests::fresh;
use k_split::KSplit;
use pm_lines::Power;
use staging_files::{StageFault, StageRun, Staging};
use std::alloc::{AllocError, Global};
use std::test::Fail;
use test_kit::{RowError, Text, asked, assert_rows, option, row_told, small_number};

const RUNS: &str = "\
# Worked by hand: 247 data blocks. Four runs of 33 lie at the start of the four staging files, and the fifth finds no room, since
# no staging file is empty. Then all is given up, and a run is asked for anew.
row runs_of_33_blocks
run 33 = staging file 1 from block 0, generation 1, 182 free
run 33 = staging file 2 from block 0, generation 1, 117 free
run 33 = staging file 3 from block 0, generation 1, 60 free
run 33 = staging file 4 from block 0, generation 1, 26 free
run 33 = no room, 40 needed, 0 there
owed = 4
give up = 247 free
owed = 0
run 33 = staging file 1 from block 0, generation 2, 182 free

# 56 data blocks: runs of one block lie behind one another, and one of 33 finds too few free blocks.
row runs_of_one_block
image 64 4 16 16
run 1 = staging file 1 from block 0, generation 1, 29 free
run 1 = staging file 1 from block 1, generation 1, 29 free
run 1 = staging file 1 from block 2, generation 1, 29 free
run 1 = staging file 1 from block 3, generation 1, 29 free
run 1 = staging file 1 from block 4, generation 1, 29 free
run 33 = no room, 41 needed, 29 there
";

// Whether a staging file has no block.
fn is_empty(k: &KSplit, staging: u32) -> bool
    ensures { result ≡ true → extents k.now.volume staging ≡ [] }
{
    match k.map(staging) {
        Some(map) => map.extents().is_empty(),
        None => false,
    }
}

// Whether no staging file has one.
fn is_bare(k: &KSplit) -> bool
    ensures { result ≡ true → Agrees nothing_staged k.now }
{
    is_empty(k, 1) && is_empty(k, 2) && is_empty(k, 3) && is_empty(k, 4)
}

// Whether runs may be asked for: a new staging agrees with a device on which no staging file has a block.
fn is_calm(staging: &Staging, k: &KSplit) -> bool
    requires nothing { staging.now ≡ nothing_staged }
    requires fresh { IsFresh k.now }
    ensures { result ≡ true → IsCalm staging.now k.now }
{
    is_bare(k)
}

// Asks for a run, with power that lasts.
fn reserved(
    staging: &mut Staging,
    k: &mut KSplit,
    alloc: Global,
    count: u32,
) -> Result<StageRun, StageFault>
    requires calm { IsCalm staging.old k.old }
    requires some { 1 ≤ count }
    requires most { count ≤ 33 }
    ensures { IsCalmAfter staging.new k.new result }
{
    let mut power = Power::always();
    staging.reserve(alloc, k, count, &mut power)
}

// Adds a run, and how many blocks are free behind it.
fn put_run(text: &mut Text, run: &StageRun, free: u32) {
    text.put("staging file ");
    text.put_number(u64::from(run.staging));
    text.put(" from block ");
    text.put_number(u64::from(run.block));
    text.put(", generation ");
    text.put_number(u64::from(run.generation));
    text.put(", ");
    text.put_number(u64::from(free));
    text.put(" free");
}

fn put_no_room(text: &mut Text, need: u32, room: u32) {
    text.put("no room, ");
    text.put_number(u64::from(need));
    text.put(" needed, ");
    text.put_number(u64::from(room));
    text.put(" there");
}

// Asks for a run, and tells it, or why there is none.
fn tell_run(
    staging: &mut Staging,
    k: &mut KSplit,
    alloc: Global,
    count: u32,
    text: &mut Text,
) -> Result<(), RowError>
    requires { IsCalm staging.old k.old }
    ensures { OnOk result (IsCalm staging.new k.new) }
{
    if count < 1 || count > 33 {
        return Err(RowError::Misspelled);
    }
    match reserved(staging, k, alloc, count) {
        Ok(run) => {
            put_run(text, &run, k.free_blocks());
            Ok(())
        }
        Err(StageFault::NoRoom { need, room }) => {
            put_no_room(text, need, room);
            Ok(())
        }
        Err(StageFault::PowerLost) => Err(RowError::PowerLost),
        Err(StageFault::NoMemory) => Err(RowError::NoMemory),
    }
}

// All staging files give up their blocks, with power that lasts.
fn given_up(staging: &mut Staging, k: &mut KSplit, alloc: Global) -> Result<Commit, AllocError>
    requires { IsCalm staging.old k.old }
    ensures { IsCalmDone staging.new k.new result }
{
    let mut power = Power::always();
    staging.give_up_all(alloc, k, &mut power)
}

// The same, and how many blocks are free then.
fn tell_given_up(
    staging: &mut Staging,
    k: &mut KSplit,
    alloc: Global,
    text: &mut Text,
) -> Result<(), RowError>
    requires { IsCalm staging.old k.old }
    ensures { OnOk result (IsCalm staging.new k.new) }
{
    match given_up(staging, k, alloc) {
        Ok(Commit::Done) => {
            text.put_number(u64::from(k.free_blocks()));
            text.put(" free");
            Ok(())
        }
        Ok(Commit::PowerLost) => Err(RowError::PowerLost),
        Err(_) => Err(RowError::NoMemory),
    }
}

// Adds what a line answers.
fn answer(
    staging: &mut Staging,
    k: &mut KSplit,
    alloc: Global,
    call: &str,
    text: &mut Text,
) -> Result<(), RowError>
    requires { IsCalm staging.old k.old }
    ensures { OnOk result (IsCalm staging.new k.new) }
{
    match first_word(call) {
        ("owed", _) => {
            text.put_number(u64::from(staging.owed()));
            Ok(())
        }
        ("give", _) => tell_given_up(staging, k, alloc, text),
        (_, count) => tell_run(staging, k, alloc, small_number(count)?, text),
    }
}

// Adds what is answered to each line of a row.
fn answer_all(
    staging: &mut Staging,
    k: &mut KSplit,
    alloc: Global,
    row: &str,
    text: &mut Text,
) -> Result<(), RowError>
    requires { IsCalm staging.old k.old }
{
    for line in row.lines() {
        if let Some((call, _)) = asked(line) {
            answer(staging, k, alloc, call, text)?;
            text.put("\n");
        }
    }
    Ok(())
}

// Adds the answers to a row on a fresh device.
fn put_answers(text: &mut Text, k: &mut KSplit, alloc: Global, row: &str) -> Result<(), RowError>
    requires { IsFresh k.old }
{
    let mut staging = Staging::new(alloc);
    if !is_calm(&staging, k) {
        return Err(RowError::Unlike);
    }
    answer_all(&mut staging, k, alloc, row, text)
}

// The numbers of the image that a row begins on.
fn geometry_of(alloc: Global, row: &str) -> Result<Geometry, RowError> {
    let Some(words) = option(row, "image") else {
        return Ok(Geometry::default_image());
    };
    match numbers(alloc, words)?.as_slice() {
        &[blocks, log, inodes, names] => {
            Geometry::checked(blocks, log, inodes, names).ok_or(RowError::Misspelled)
        }
        _ => Err(RowError::Misspelled),
    }
}

// The device that a row begins on.
fn device_of(alloc: Global, row: &str) -> Result<KSplit, RowError>
    ensures { IfOk result IsFresh }
{
    fresh(alloc, &geometry_of(alloc, row)?)
}

// Adds the answers to a row on the device that it begins on.
fn put_all(text: &mut Text, alloc: Global, row: &str) -> Result<(), RowError> {
    let mut k = device_of(alloc, row)?;
    put_answers(text, &mut k, alloc, row)
}

// How a row goes: `ok`, or the first line that is answered otherwise.
fn told(alloc: Global, row: &str) -> Result<String, RowError> {
    let mut text = Text::new(alloc);
    put_all(&mut text, alloc, row)?;
    row_told(alloc, row, &text.end()?)
}

#[test]
fn runs_of_staging_blocks(rt: HostRuntime) -> Result<(), Fail> {
    assert_rows(&rt, RUNS, 2, &told)?;
    Ok(())
}
