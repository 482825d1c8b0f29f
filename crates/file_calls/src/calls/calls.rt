//! Any call that is built.
ghost use Rattle.std.specs.Prelude.{◌≡◌, true};
ghost use Rattle.pm_lines.specs.pm_model.Powers.{is_on, Steps};
ghost use Rattle.file_calls.specs.Answers.{most_steps, IsEnded, KeepsEnds};
ghost use Rattle.file_calls.specs.Runs.{RunsInSome};
ghost use Rattle.file_calls.specs.Built.{CutsNothing, IsBuilt, NamesAreSpelled};

use crate::calls::reads::{fsync, pread, read, seek};
use crate::names::{
    FileTable, KSplit, NoMemory, OpenFiles, Told, close, dup, list, mkdir, open, rename, rmdir,
    stat, unlink,
};
use pm_lines::Power;
use posix_types::{Call, Who};
use std::alloc::Global;

/// Runs a call of whose file no write is out, where nothing is staged of a file that it cuts: it
/// takes all memory before its first step, and 512 steps at most; 2^15 where it may cut a file.
pub fn run_call(
    alloc: Global,
    k: &mut KSplit,
    tables: &mut OpenFiles,
    files: &mut FileTable,
    who: Who,
    call: &Call,
    power: &mut Power,
) -> Result<Told, NoMemory>
    requires built { IsBuilt call.now }
    requires spelled { NamesAreSpelled call.now }
    requires bare { CutsNothing call.now k.old files.old }
    requires runs { RunsInSome k.old tables.old.tables files.old }
    requires power { is_on power.old ≡ true }
    ensures steps { Steps (most_steps call.now) power.old power.new }
    ensures ended { IsEnded who call.now k.old tables.old.tables files.old k.new tables.new.tables
        files.new power.old power.new result }
    ensures ends { KeepsEnds k.old files.old k.new files.new power.new }
{
    match call {
        Call::Mkdir(path) => mkdir(alloc, k, path, power),
        Call::Rmdir(path) => rmdir(k, path, power),
        Call::Unlink(path) => unlink(k, tables, files, path, power),
        Call::Rename(path, to) => rename(alloc, k, tables, files, path, to, power),
        Call::Open(handle, path, flags) => {
            open(alloc, k, tables, files, who, *handle, path, *flags, power)
        }
        Call::Close(handle) => Ok(close(k, tables, files, who, *handle, power)),
        Call::Dup(handle, to) => dup(tables, who, *handle, *to),
        Call::Stat(path) => Ok(stat(k, files, path)),
        Call::List(path) => list(alloc, k, path),
        Call::Read(handle, count) => read(alloc, k, tables, files, who, *handle, *count),
        Call::Pread(handle, offset, count) => {
            pread(alloc, k, tables, files, who, *handle, *offset, *count)
        }
        Call::Seek(handle, whence, by) => {
            let by = *by;
            Ok(seek(k, tables, files, who, *handle, *whence, by))
        }
        Call::Fsync(handle) => Ok(fsync(tables, who, *handle)),
        Call::Write(..) | Call::Pwrite(..) | Call::Truncate(..) => unreachable!(),
    }
}
