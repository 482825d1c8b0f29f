//! The calls that look at an open file: its bytes, its offset, its length.
ghost use Rattle.std.specs.Prelude.{◌≡◌, ◌<◌, length, false, true, IfNone, IfOk, IfSome, Ok};
ghost use Rattle.pm_lines.specs.pm_model.Images.{words_of};
ghost use Rattle.pm_lines.specs.pm_model.Powers.{is_on, Supply};
ghost use Rattle.live_step_laws.specs.data_route.Reads.{read_len};
ghost use Rattle.live_step_laws.specs.file_reads.Reads.{bytes_in};
ghost use Rattle.eof_laws.specs.file_table.Files.{Files, runs_in, size_in};
ghost use Rattle.eof_laws.specs.k_split_model.View.{View};
ghost use Rattle.posix_types.specs.declared.call.Call.{Call};
ghost use Rattle.posix_tables.specs.Open.{may_read};
ghost use Rattle.file_calls.specs.Answers.{IsEnded};
ghost use Rattle.file_calls.specs.Reading.{base_by, IsReadableFile, IsReadBy};
ghost use Rattle.file_calls.specs.Gathers.{IsGatheredEnd};
ghost use Rattle.file_calls.specs.Runs.{CanRun};
ghost use Rattle.live_step_laws.specs.live_model.staging_files.Keeps.{Staged};

use crate::names::{
    Collection, FileTable, KSplit, NoMemory, OpenFiles, Opened, Told, answered, read_bytes,
};
use posix_tables::bytes::moved_place;
use posix_types::{Data, Errno, Handle, Reply, Whence, Who};
use std::alloc::{AllocError, Global};

// The bytes of a file from a place on, `count` of them or those up to its end.
fn bytes_at(
    alloc: Global,
    k: &KSplit,
    files: &FileTable,
    ino: u32,
    place: u64,
    count: u64,
) -> Result<Data, AllocError>
    requires { IsReadableFile k.now files.now ino }
    ensures { IfOk result (λ bytes. bytes ≡ bytes_in k.now.volume (words_of k.now.cells)
        (runs_in files.now ino) ino place (read_len (size_in files.now ino) place count)) }
{
    let mut collection = Collection::new(alloc);
    let bytes = read_bytes(
        alloc,
        k,
        ino,
        files.size(ino),
        place,
        count,
        files.overlay(ino),
        &mut collection,
    )?;
    Data::of(bytes)
}

// The file of a handle, where it was opened to be read.
fn opened_to_read(tables: &OpenFiles, who: Who, handle: Handle) -> Option<Opened>
    ensures none { IfNone result (may_read tables.now.tables who handle ≡ false) }
    ensures some { IfSome result (IsReadBy tables.now.tables who handle) }
{
    match tables.find(who, handle) {
        Some(opened) if opened.flags.read => Some(opened),
        _ => None,
    }
}

/// Reads up to `count` bytes of an open file from its offset on, which rises by their number. It
/// takes memory for what it reads, and no step.
pub fn read(
    alloc: Global,
    k: &KSplit,
    tables: &mut OpenFiles,
    files: &FileTable,
    who: Who,
    handle: Handle,
    count: u64,
) -> Result<Told, NoMemory>
    requires { CanRun k.now tables.old.tables files.now }
    ensures ended { (power : Supply) → is_on power ≡ true
        → IsEnded who (Call.Read handle count) k.now tables.old.tables files.now k.now
        tables.new.tables files.now power power result }
    ensures gathers { (a : Staged) (power : Supply) → is_on power ≡ true
        → IsGatheredEnd who (Call.Read handle count) k.now tables.old.tables a files.now k.now
        tables.new.tables a files.now power power result }
{
    match opened_to_read(tables, who, handle) {
        None => Ok(answered(Reply::Error(Errno::EBADF))),
        Some(opened) => {
            let bytes = bytes_at(alloc, k, files, opened.ino, opened.offset, count)?;
            tables.set_offset(opened.key, opened.offset + bytes.len() as u64);
            Ok(answered(Reply::Bytes(bytes)))
        }
    }
}

/// Reads up to `count` bytes of an open file from `place` on; its offset stays. It takes memory for
/// what it reads, and no step.
pub fn pread(
    alloc: Global,
    k: &KSplit,
    tables: &OpenFiles,
    files: &FileTable,
    who: Who,
    handle: Handle,
    place: u64,
    count: u64,
) -> Result<Told, NoMemory>
    requires { CanRun k.now tables.now.tables files.now }
    ensures ended { (power : Supply) → is_on power ≡ true
        → IsEnded who (Call.Pread handle place count) k.now tables.now.tables files.now k.now
        tables.now.tables files.now power power result }
    ensures gathers { (a : Staged) (power : Supply) → is_on power ≡ true
        → IsGatheredEnd who (Call.Pread handle place count) k.now tables.now.tables a files.now
        k.now tables.now.tables a files.now power power result }
{
    match opened_to_read(tables, who, handle) {
        None => Ok(answered(Reply::Error(Errno::EBADF))),
        Some(opened) => {
            let bytes = bytes_at(alloc, k, files, opened.ino, place, count)?;
            Ok(answered(Reply::Bytes(bytes)))
        }
    }
}

// What a seek counts from.
fn base_of(files: &FileTable, opened: Opened, whence: Whence) -> u64
    requires { opened.ino < length files.now.sizes }
    ensures { result ≡ base_by opened.offset (size_in files.now opened.ino) whence }
{
    match whence {
        Whence::Set => 0,
        Whence::Cur => opened.offset,
        Whence::End => files.size(opened.ino),
    }
}

/// Sets the offset of an open file: it counts from the start, from the offset or from the end of
/// the file. It takes no memory and no step.
pub fn seek(
    k: &KSplit,
    tables: &mut OpenFiles,
    files: &FileTable,
    who: Who,
    handle: Handle,
    whence: Whence,
    by: i64,
) -> Told
    requires { CanRun k.now tables.old.tables files.now }
    ensures ended { (power : Supply) → is_on power ≡ true
        → IsEnded who (Call.Seek handle whence by) k.now tables.old.tables files.now k.now
        tables.new.tables files.now power power (Ok result) }
    ensures gathers { (a : Staged) (power : Supply) → is_on power ≡ true
        → IsGatheredEnd who (Call.Seek handle whence by) k.now tables.old.tables a files.now k.now
        tables.new.tables a files.now power power (Ok result) }
{
    let _k = k;
    match tables.find(who, handle) {
        None => answered(Reply::Error(Errno::EBADF)),
        Some(opened) => match moved_place(base_of(files, opened, whence), by) {
            None => answered(Reply::Error(Errno::EINVAL)),
            Some(place) => {
                tables.set_offset(opened.key, place);
                answered(Reply::Offset(place))
            }
        },
    }
}

/// Answers an `fsync`: no call sees what it publishes, so this takes no step. What is staged of the
/// file the layer above has published before.
pub fn fsync(tables: &OpenFiles, who: Who, handle: Handle) -> Told
    ensures { (k : View) (f : Files) (power : Supply) → is_on power ≡ true
        → IsEnded who (Call.Fsync handle) k tables.now.tables f k tables.now.tables f power power
        (Ok result) }
{
    match tables.find(who, handle) {
        None => answered(Reply::Error(Errno::EBADF)),
        Some(_) => answered(Reply::Ok),
    }
}
