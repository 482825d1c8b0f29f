//! Calls on maps, each made where what it asks for is there.
ghost use Rattle.std.specs.Prelude.{◌≡◌, ◌+◌, ◌≤◌, [], IsTrue, OnOk};
ghost use Rattle.k_check.specs.image_model.Room.{unused_blocks};
ghost use Rattle.k_check.specs.layout_model.Places.{reserve};
ghost use Rattle.k_split.specs.MapChanges.{free_blocks_in};
ghost use Rattle.k_split.specs.k_split_model.View.{View};
ghost use Rattle.k_map_tests.specs.Calls.{IsFresh, IsLeft, IsLeftBy};

use crate::asking::{
    bytes_are_there, has_block, is_bare, is_behind, is_file, is_staging, may_move,
};
use crate::kinds::{MapCall, Put, Reply};
use k_split::{KFault, KSplit, Move};
use pm_lines::Power;
use std::alloc::Global;
use test_kit::RowError;

// The longest file, in bytes.
const LONGEST: u64 = 16_777_216;

fn reply_of(outcome: Result<(), KFault>) -> Result<Reply, RowError>
    ensures { (k : View) → IsLeftBy k outcome → IsLeft k result }
{
    match outcome {
        Ok(()) => Ok(Reply::Done),
        Err(KFault::Room(room)) => Ok(Reply::Room(room)),
        Err(KFault::PowerLost) => Ok(Reply::Lost),
        Err(KFault::Refused(_) | KFault::NoMemory) => Err(RowError::Misspelled),
    }
}

/// Whether `count` blocks and the reserve, less so many, are free.
pub fn has_free(k: &KSplit, count: u32, less: u32) -> bool
    ensures { IsTrue result
        → count + reserve k.now.volume.geometry ≤ free_blocks_in k.now + less }
{
    u64::from(count) + u64::from(k.geometry().reserve())
        <= u64::from(k.free_blocks()) + u64::from(less)
}

// Whether the reserve, less so many, is there among the blocks that nothing uses. No block waits.
fn has_reserve(k: &KSplit, less: u32) -> bool
    requires { k.now.waiting ≡ [] }
    ensures { IsTrue result → reserve k.now.volume.geometry ≤ unused_blocks k.now.volume + less }
{
    has_free(k, 0, less)
}

fn size(
    k: &mut KSplit,
    alloc: Global,
    ino: u32,
    size: u32,
    power: &mut Power,
) -> Result<Reply, RowError>
    requires { IsFresh k.old }
    ensures { IsLeft k.new result }
{
    if !is_file(k, ino) || u64::from(size) > LONGEST || !has_reserve(k, 3) {
        return Ok(Reply::Unfit);
    }
    reply_of(k.set_size(alloc, ino, u64::from(size), power))
}

fn fill(
    k: &mut KSplit,
    alloc: Global,
    ino: u32,
    first: u32,
    count: u32,
    power: &mut Power,
) -> Result<Reply, RowError>
    requires { IsFresh k.old }
    ensures { IsLeft k.new result }
{
    if first > 4096 || count > 4096 - first || !is_file(k, ino) {
        return Ok(Reply::Unfit);
    }
    reply_of(k.fill_holes(alloc, ino, first, count, power))
}

fn take(
    k: &mut KSplit,
    alloc: Global,
    staging: u32,
    count: u32,
    power: &mut Power,
) -> Result<Reply, RowError>
    requires { IsFresh k.old }
    ensures { IsLeft k.new result }
{
    if count > 64 || !is_staging(k, staging) || !is_bare(k, staging) || !has_free(k, count, 1) {
        return Ok(Reply::Unfit);
    }
    reply_of(k.preallocate(alloc, staging, count, power))
}

fn give(k: &mut KSplit, alloc: Global, staging: u32, power: &mut Power) -> Result<Reply, RowError>
    requires { IsFresh k.old }
    ensures { IsLeft k.new result }
{
    if !is_staging(k, staging) {
        return Ok(Reply::Unfit);
    }
    reply_of(k.give_up(alloc, staging, power))
}

fn relink(k: &mut KSplit, alloc: Global, asked: &Move, power: &mut Power) -> Result<Reply, RowError>
    requires { IsFresh k.old }
    ensures { IsLeft k.new result }
{
    if !may_move(k, asked) || !has_reserve(k, 2) {
        return Ok(Reply::Unfit);
    }
    reply_of(k.relink(alloc, asked, power))
}

fn write(
    k: &mut KSplit,
    alloc: Global,
    ino: u32,
    put: Put,
    power: &mut Power,
) -> Result<Reply, RowError>
    requires { IsFresh k.old }
    ensures { IsLeft k.new result }
{
    if !is_file(k, ino) || !bytes_are_there(k, ino, put.at, put.count) {
        return Ok(Reply::Unfit);
    }
    let bytes = vec![in alloc; put.byte; put.count as usize]?;
    reply_of(k.write_in_place(ino, u64::from(put.at), &bytes, power))
}

fn stage(
    k: &mut KSplit,
    alloc: Global,
    staging: u32,
    block: u32,
    put: Put,
    power: &mut Power,
) -> Result<Reply, RowError>
    requires { IsFresh k.old }
    ensures { IsLeft k.new result }
{
    if put.at > 4096 || put.count > 4096 - put.at || !has_block(k, staging, block) {
        return Ok(Reply::Unfit);
    }
    let bytes = vec![in alloc; put.byte; put.count as usize]?;
    reply_of(k.write_staged(staging, block, put.at, &bytes, power))
}

fn clean(k: &mut KSplit, ino: u32, from: u32, power: &mut Power) -> Result<Reply, RowError>
    requires { IsFresh k.old }
    ensures { IsLeft k.new result }
{
    if !is_file(k, ino) || !is_behind(k, ino, u64::from(from)) {
        return Ok(Reply::Unfit);
    }
    reply_of(k.clean_tail(ino, u64::from(from), power))
}

/// Makes a call where what it asks for is there, and answers how it went; `Unfit` where it is not
/// there. After `Lost` the device alone is of use, which `into_pm` gives.
pub fn apply(
    k: &mut KSplit,
    alloc: Global,
    call: &MapCall,
    power: &mut Power,
) -> Result<Reply, RowError>
    requires { IsFresh k.old }
    ensures { IsLeft k.new result }
{
    match *call {
        MapCall::Size { ino, size: bytes } => size(k, alloc, ino, bytes, power),
        MapCall::Fill { ino, first, count } => fill(k, alloc, ino, first, count, power),
        MapCall::Take { staging, count } => take(k, alloc, staging, count, power),
        MapCall::Give { staging } => give(k, alloc, staging, power),
        MapCall::Relink(asked) => relink(k, alloc, &asked, power),
        MapCall::Write { ino, bytes } => write(k, alloc, ino, bytes, power),
        MapCall::Stage {
            staging,
            block,
            bytes,
        } => stage(k, alloc, staging, block, bytes, power),
        MapCall::Clean { ino, from } => clean(k, ino, from, power),
    }
}

/// Likewise with power that lasts; losing it is an error.
pub fn made(alloc: Global, k: &mut KSplit, call: &MapCall) -> Result<Reply, RowError>
    requires { IsFresh k.old }
    ensures { OnOk result (IsFresh k.new) }
{
    let mut power = Power::always();
    match apply(k, alloc, call, &mut power)? {
        Reply::Done => Ok(Reply::Done),
        Reply::Room(room) => Ok(Reply::Room(room)),
        Reply::Unfit => Ok(Reply::Unfit),
        Reply::Lost => Err(RowError::PowerLost),
    }
}
