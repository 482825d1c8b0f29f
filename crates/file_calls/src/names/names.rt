//! The calls that make, remove and move names.
ghost use Rattle.std.specs.Prelude.{◌≡◌, ◌<◌, length, true, false, Ok};
ghost use Rattle.eof_laws.specs.file_table.Files.{Files};
ghost use Rattle.eof_laws.specs.layout_model.Spelling.{AreSpelled};
ghost use Rattle.eof_laws.specs.pm_model.Powers.{is_on, Steps, Supply};
ghost use Rattle.eof_laws.specs.k_split_model.View.{View};
ghost use Rattle.posix_types.specs.declared.call.Call.{Call};
ghost use Rattle.posix_types.specs.declared.call.Who.{Who};
ghost use Rattle.open_files.specs.posix_tables.Open.{Tables};
ghost use Rattle.open_files.specs.posix_tables.Outcomes.{answer};
ghost use Rattle.live_step_laws.specs.commute_laws.Commutes.{takes};
ghost use Rattle.live_step_laws.specs.live_model.staging_files.Keeps.{Staged};
ghost use Rattle.open_files.specs.posix_spec.State.{State};
ghost use Rattle.file_calls.specs.Answers.{ComesHalfWay, HasSameLoans, IsEnded, IsFileOf, IsReplyOf, IsSpent, KeepsEnds};
ghost use Rattle.file_calls.specs.Gathers.{IsGatheredEnd};
ghost use Rattle.file_calls.specs.Runs.{RunsInSome};

use crate::names::outcomes::{NoMemory, Told, after_fault, answered};
use eof_laws::FileTable;
use live_step_laws::KSplit;
use open_files::OpenFiles;
use pm_lines::Power;
use posix_types::{Path, Reply};
use std::alloc::Global;

/// Makes a directory. The path is spelled. Where changes gather, the batch may be committed in it.
pub fn mkdir(
    alloc: Global,
    k: &mut KSplit,
    path: &Path,
    power: &mut Power,
) -> Result<Told, NoMemory>
    requires on { k.old.lost ≡ false }
    requires spelled { AreSpelled path.now }
    ensures steps { k.old.batched ≡ false → Steps 256 power.old power.new }
    ensures most { Steps 4112 power.old power.new }
    ensures ended { k.old.batched ≡ false → (who : Who) (t : Tables) (f : Files)
        → IsEnded who (Call.Mkdir path.now) k.old t f k.new t f power.old power.new result }
    ensures gathers { k.old.batched ≡ true → (who : Who) (t : Tables) (a : Staged) (f : Files)
        → IsGatheredEnd who (Call.Mkdir path.now) k.old t a f k.new t a f power.old power.new
        result }
    ensures ends { (t : Tables) (f : Files) → RunsInSome k.old t f
        → KeepsEnds k.old f k.new f power.new }
{
    match k.make(alloc, path, true, power) {
        Ok(_) => Ok(answered(Reply::Ok)),
        Err(fault) => after_fault(fault),
    }
}

/// Removes an empty directory. Where changes gather, the batch may be committed in it.
pub fn rmdir(k: &mut KSplit, path: &Path, power: &mut Power) -> Result<Told, NoMemory>
    requires on { k.old.lost ≡ false }
    ensures steps { k.old.batched ≡ false → Steps 256 power.old power.new }
    ensures most { Steps 4112 power.old power.new }
    ensures ended { k.old.batched ≡ false → (who : Who) (t : Tables) (f : Files)
        → IsEnded who (Call.Rmdir path.now) k.old t f k.new t f power.old power.new result }
    ensures gathers { k.old.batched ≡ true → (who : Who) (t : Tables) (a : Staged) (f : Files)
        → IsGatheredEnd who (Call.Rmdir path.now) k.old t a f k.new t a f power.old power.new
        result }
    ensures ends { k.old.batched ≡ false → (f : Files) → KeepsEnds k.old f k.new f power.new }
{
    match k.rmdir(path, power) {
        Ok(()) => Ok(answered(Reply::Ok)),
        Err(fault) => after_fault(fault),
    }
}

// The second change of a call after which a file has maybe no name and maybe no descriptor: the
// file goes, and what is kept of it, where it has no name left and nobody has it open.
pub(crate) fn sweep(
    k: &mut KSplit,
    tables: &OpenFiles,
    files: &mut FileTable,
    ino: u32,
    reply: Reply,
    power: &mut Power,
) -> Told
    requires on { k.old.lost ≡ false }
    requires unbatched { k.old.batched ≡ false }
    requires file { IsFileOf ino k.old.volume }
    requires line { ino < length files.old.sizes }
    ensures steps { Steps 256 power.old power.new }
    ensures ended { (who : Who) (call : Call) (before : View) (t : Tables) (entry : Supply)
        → ComesHalfWay who call before t files.old k.old tables.now.tables ino
        → IsReplyOf who call before t files.old (answer reply)
        → IsSpent who call before t files.old entry power.old → is_on power.old ≡ true
        → ((s : State) → takes s (who, call) ≡ 0) → HasSameLoans before k.old
        → IsEnded who call before t files.old k.new tables.now.tables files.new entry power.new
        (Ok result) }
    ensures ends { KeepsEnds k.old files.old k.new files.new power.new }
{
    if k.named(ino) {
        return answered(reply);
    }
    if tables.is_open(ino) {
        return answered(reply);
    }
    match k.drop_node(ino, power) {
        Ok(()) => {
            files.clear(ino, 0);
            answered(reply)
        }
        Err(_) => Told::PowerLost,
    }
}

/// Takes the name of a file away: first the name goes, then the file, where nobody has it open.
pub fn unlink(
    k: &mut KSplit,
    tables: &OpenFiles,
    files: &mut FileTable,
    path: &Path,
    power: &mut Power,
) -> Result<Told, NoMemory>
    requires runs { RunsInSome k.old tables.now.tables files.old }
    ensures steps { Steps 512 power.old power.new }
    ensures ended { (who : Who) → IsEnded who (Call.Unlink path.now) k.old tables.now.tables
        files.old k.new tables.now.tables files.new power.old power.new result }
    ensures ends { KeepsEnds k.old files.old k.new files.new power.new }
{
    match k.unlink(path, power) {
        Ok(ino) => Ok(sweep(k, tables, files, ino, Reply::Ok, power)),
        Err(fault) => after_fault(fault),
    }
}

/// Gives a node another path, which is spelled. A file that stood there goes, where nobody has it
/// open.
pub fn rename(
    alloc: Global,
    k: &mut KSplit,
    tables: &OpenFiles,
    files: &mut FileTable,
    path: &Path,
    to: &Path,
    power: &mut Power,
) -> Result<Told, NoMemory>
    requires runs { RunsInSome k.old tables.now.tables files.old }
    requires spelled { AreSpelled to.now }
    ensures steps { Steps 512 power.old power.new }
    ensures ended { (who : Who) → IsEnded who (Call.Rename path.now to.now) k.old
        tables.now.tables files.old k.new tables.now.tables files.new power.old power.new result }
    ensures ends { KeepsEnds k.old files.old k.new files.new power.new }
{
    match k.rename(alloc, path, to, power) {
        Ok(None) => Ok(answered(Reply::Ok)),
        Ok(Some(ino)) => Ok(sweep(k, tables, files, ino, Reply::Ok, power)),
        Err(fault) => after_fault(fault),
    }
}
