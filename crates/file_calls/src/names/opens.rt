//! The calls on descriptors.
ghost use Rattle.std.specs.Prelude.{◌≡◌, ◌&&◌, ◌<◌, ◌^◌, length, nat_lt, [], true, false, Ok};
ghost use Rattle.eof_laws.specs.layout_model.Spelling.{AreSpelled};
ghost use Rattle.eof_laws.specs.pm_model.Powers.{is_on, Steps, Supply};
ghost use Rattle.layout_model.specs.declared.lines.Kind.TheVariants.{File};
ghost use Rattle.eof_laws.specs.image_model.Volume.{inode};
ghost use Rattle.eof_laws.specs.file_table.Files.{Files, runs_in, size_in};
ghost use Rattle.eof_laws.specs.k_split_model.Spaces.{is_directory_in};
ghost use Rattle.eof_laws.specs.k_split_model.View.{View};
ghost use Rattle.live_step_laws.specs.k_split.Looks.{IsFound};
ghost use Rattle.posix_types.specs.declared.call.Call.{Call};
ghost use Rattle.file_calls.specs.Answers.{most_steps, told_of_open, CutsNothingStaged, IsEnded, IsMissing, KeepsEnds};
ghost use Rattle.file_calls.specs.Gathers.{IsGatheredEnd};
ghost use Rattle.file_calls.specs.Runs.{RunsInSome};
ghost use Rattle.live_step_laws.specs.live_model.staging_files.Keeps.{Staged};

use crate::names::outcomes::{NoMemory, Told, after_fault, answered};
use eof_laws::FileTable;
use layout_model::Kind;
use live_step_laws::KSplit;
use open_files::{OpenFault, OpenFiles};
use pm_lines::Power;
use posix_types::{Errno, Flags, Handle, Path, Reply, Who};
use std::alloc::Global;

// What a fault of the open files makes of a call.
fn after_open_fault(fault: OpenFault) -> Result<Told, NoMemory>
    ensures { result ≡ told_of_open fault }
{
    match fault {
        OpenFault::Full { count: _ } => Ok(answered(Reply::Error(Errno::EMFILE))),
        OpenFault::NotOpen => Ok(answered(Reply::Error(Errno::EBADF))),
        OpenFault::NoMemory => Err(NoMemory {}),
    }
}

fn is_directory(k: &KSplit, ino: u32) -> bool
    ensures { result ≡ is_directory_in k.now.volume.inodes ino }
{
    match k.node(ino) {
        Some(inode) => match inode.kind {
            Kind::Directory => true,
            Kind::Free => false,
            Kind::File => false,
            Kind::Staging => false,
        },
        None => false,
    }
}

// Whether a file that exists is refused.
fn is_exclusive(flags: Flags) -> bool
    ensures { result ≡ (flags.create && flags.exclusive) }
{
    flags.create && flags.exclusive
}

// Whether an `open` cuts a file that has bytes.
fn is_cut(files: &FileTable, ino: u32, flags: Flags) -> bool
    requires { ino < length files.now.sizes }
    ensures { result ≡ (flags.truncate && nat_lt 0 (size_in files.now ino)) }
{
    flags.truncate && 0 < files.size(ino)
}

// Opens a file that is there and is not cut, or has nothing to cut.
fn open_there(
    k: &KSplit,
    tables: &mut OpenFiles,
    files: &FileTable,
    who: Who,
    handle: Handle,
    path: &Path,
    ino: u32,
    flags: Flags,
) -> Result<Told, NoMemory>
    requires found { IsFound k.now.volume path.now (Ok ino) }
    requires file { (inode k.now.volume ino).kind ≡ File }
    requires shared { (flags.create && flags.exclusive) ≡ false }
    requires stays { flags.truncate ≡ true → size_in files.now ino ≡ 0 }
    ensures ended { (power : Supply) → is_on power ≡ true
        → IsEnded who (Call.Open handle path.now flags) k.now tables.old.tables files.now k.now
        tables.new.tables files.now power power result }
    ensures gathers { (a : Staged) (power : Supply) → is_on power ≡ true
        → IsGatheredEnd who (Call.Open handle path.now flags) k.now tables.old.tables a files.now
        k.now tables.new.tables a files.now power power result }
{
    let _k = k;
    let _files = files;
    let _path = path;
    match tables.open(who, handle, ino, flags) {
        Ok(descriptor) => Ok(answered(Reply::Fd(descriptor))),
        Err(fault) => after_open_fault(fault),
    }
}

// Cuts a file to nothing, of which nothing is staged, and opens it. It takes all memory before the
// first step.
fn open_cut(
    alloc: Global,
    k: &mut KSplit,
    tables: &mut OpenFiles,
    files: &mut FileTable,
    who: Who,
    handle: Handle,
    path: &Path,
    ino: u32,
    flags: Flags,
    power: &mut Power,
) -> Result<Told, NoMemory>
    requires found { IsFound k.old.volume path.now (Ok ino) }
    requires runs { RunsInSome k.old tables.old.tables files.old }
    requires file { (inode k.old.volume ino).kind ≡ File }
    requires bare { runs_in files.old ino ≡ [] }
    requires shared { (flags.create && flags.exclusive) ≡ false }
    requires cuts { flags.truncate ≡ true }
    requires power { is_on power.old ≡ true }
    ensures steps { Steps (2 ^ 15) power.old power.new }
    ensures ended { IsEnded who (Call.Open handle path.now flags) k.old tables.old.tables files.old
        k.new tables.new.tables files.new power.old power.new result }
    ensures ends { KeepsEnds k.old files.old k.new files.new power.new }
{
    let _path = path;
    if tables.is_full() {
        return Ok(answered(Reply::Error(Errno::EMFILE)));
    }
    let Ok(()) = tables.reserve() else {
        return Err(NoMemory {});
    };
    match k.set_size(alloc, ino, 0, power) {
        Ok(()) => {
            files.clear(ino, 0);
            match tables.open(who, handle, ino, flags) {
                Ok(descriptor) => Ok(answered(Reply::Fd(descriptor))),
                Err(_) => unreachable!(),
            }
        }
        Err(fault) => after_fault(fault),
    }
}

// Opens what stands at a path.
fn open_found(
    alloc: Global,
    k: &mut KSplit,
    tables: &mut OpenFiles,
    files: &mut FileTable,
    who: Who,
    handle: Handle,
    path: &Path,
    ino: u32,
    flags: Flags,
    power: &mut Power,
) -> Result<Told, NoMemory>
    requires found { IsFound k.old.volume path.now (Ok ino) }
    requires runs { RunsInSome k.old tables.old.tables files.old }
    requires bare { CutsNothingStaged k.old.volume path.now flags files.old }
    requires power { is_on power.old ≡ true }
    ensures steps { Steps (most_steps (Call.Open handle path.now flags)) power.old power.new }
    ensures ended { IsEnded who (Call.Open handle path.now flags) k.old tables.old.tables files.old
        k.new tables.new.tables files.new power.old power.new result }
    ensures ends { KeepsEnds k.old files.old k.new files.new power.new }
{
    if is_exclusive(flags) {
        return Ok(answered(Reply::Error(Errno::EEXIST)));
    }
    if is_directory(k, ino) {
        return Ok(answered(Reply::Error(Errno::EISDIR)));
    }
    if is_cut(files, ino, flags) {
        return open_cut(
            alloc, k, tables, files, who, handle, path, ino, flags, power,
        );
    }
    open_there(k, tables, files, who, handle, path, ino, flags)
}

// Makes the missing file, where the flags say so, and opens it. It takes memory for the tables
// before anything else.
fn open_missing(
    alloc: Global,
    k: &mut KSplit,
    tables: &mut OpenFiles,
    who: Who,
    handle: Handle,
    path: &Path,
    flags: Flags,
    power: &mut Power,
) -> Result<Told, NoMemory>
    requires spelled { AreSpelled path.now }
    requires on { k.old.lost ≡ false }
    requires missing { IsMissing k.old.volume path.now }
    requires power { is_on power.old ≡ true }
    ensures steps { k.old.batched ≡ false → Steps 256 power.old power.new }
    ensures most { Steps 4112 power.old power.new }
    ensures ended { k.old.batched ≡ false → (f : Files)
        → IsEnded who (Call.Open handle path.now flags) k.old tables.old.tables f k.new
        tables.new.tables f power.old power.new result }
    ensures gathers { k.old.batched ≡ true → (a : Staged) (f : Files)
        → IsGatheredEnd who (Call.Open handle path.now flags) k.old tables.old.tables a f k.new
        tables.new.tables a f power.old power.new result }
    ensures ends { (f : Files) → RunsInSome k.old tables.old.tables f
        → KeepsEnds k.old f k.new f power.new }
{
    if !flags.create {
        return Ok(answered(Reply::Error(Errno::ENOENT)));
    }
    if tables.is_full() {
        return Ok(answered(Reply::Error(Errno::EMFILE)));
    }
    tables.reserve()?;
    match k.make(alloc, path, false, power) {
        Ok(ino) => match tables.open(who, handle, ino, flags) {
            Ok(descriptor) => Ok(answered(Reply::Fd(descriptor))),
            Err(_) => unreachable!(),
        },
        Err(fault) => after_fault(fault),
    }
}

/// Opens a file at a path. It is made where it is missing and the flags say so; a file that is
/// there and has bytes is cut to nothing where they say so: then nothing is staged of it. The path
/// is spelled.
pub fn open(
    alloc: Global,
    k: &mut KSplit,
    tables: &mut OpenFiles,
    files: &mut FileTable,
    who: Who,
    handle: Handle,
    path: &Path,
    flags: Flags,
    power: &mut Power,
) -> Result<Told, NoMemory>
    requires spelled { AreSpelled path.now }
    requires runs { RunsInSome k.old tables.old.tables files.old }
    requires bare { CutsNothingStaged k.old.volume path.now flags files.old }
    requires power { is_on power.old ≡ true }
    ensures steps { Steps (most_steps (Call.Open handle path.now flags)) power.old power.new }
    ensures ended { IsEnded who (Call.Open handle path.now flags) k.old tables.old.tables files.old
        k.new tables.new.tables files.new power.old power.new result }
    ensures ends { KeepsEnds k.old files.old k.new files.new power.new }
{
    match k.find(path) {
        Ok(ino) => open_found(
            alloc, k, tables, files, who, handle, path, ino, flags, power,
        ),
        Err(_) => match k.directory_of(path) {
            Err(errno) => Ok(answered(Reply::Error(errno))),
            Ok(_) => open_missing(alloc, k, tables, who, handle, path, flags, power),
        },
    }
}

/// Gives an open file another descriptor, bound to another handle. It takes no step.
pub fn dup(tables: &mut OpenFiles, who: Who, handle: Handle, to: Handle) -> Result<Told, NoMemory>
    ensures ended { (k : View) (f : Files) (power : Supply) → is_on power ≡ true
        → IsEnded who (Call.Dup handle to) k tables.old.tables f k tables.new.tables f power power
        result }
    ensures gathers { (k : View) (a : Staged) (f : Files) (power : Supply) → is_on power ≡ true
        → IsGatheredEnd who (Call.Dup handle to) k tables.old.tables a f k tables.new.tables a f
        power power result }
{
    match tables.dup(who, handle, to) {
        Ok(descriptor) => Ok(answered(Reply::Fd(descriptor))),
        Err(fault) => after_open_fault(fault),
    }
}

/// Closes a handle, and drops a file that has no name with its last descriptor, and what is kept of
/// it. It takes no memory.
pub fn close(
    k: &mut KSplit,
    tables: &mut OpenFiles,
    files: &mut FileTable,
    who: Who,
    handle: Handle,
    power: &mut Power,
) -> Told
    requires runs { RunsInSome k.old tables.old.tables files.old }
    requires power { is_on power.old ≡ true }
    ensures steps { Steps 256 power.old power.new }
    ensures ended { IsEnded who (Call.Close handle) k.old tables.old.tables files.old k.new
        tables.new.tables files.new power.old power.new (Ok result) }
    ensures ends { KeepsEnds k.old files.old k.new files.new power.new }
{
    match tables.find(who, handle) {
        None => answered(Reply::Error(Errno::EBADF)),
        Some(opened) => {
            tables.close(who, handle);
            if k.named(opened.ino) {
                return answered(Reply::Ok);
            }
            if tables.is_open(opened.ino) {
                return answered(Reply::Ok);
            }
            match k.drop_node(opened.ino, power) {
                Ok(()) => {
                    files.clear(opened.ino, 0);
                    answered(Reply::Ok)
                }
                Err(_) => Told::PowerLost,
            }
        }
    }
}
