//! The calls that look at a path.
ghost use Rattle.std.specs.Prelude.{◌≡◌, ◌<◌, length, true, Ok};
ghost use Rattle.layout_model.specs.declared.lines.Kind.TheVariants.{File};
ghost use Rattle.eof_laws.specs.file_table.Files.{Files, size_in};
ghost use Rattle.eof_laws.specs.pm_model.Powers.{is_on, Supply};
ghost use Rattle.posix_types.specs.declared.call.Call.{Call};
ghost use Rattle.posix_types.specs.declared.call.Who.{Who};
ghost use Rattle.open_files.specs.posix_tables.Open.{Tables};
ghost use Rattle.live_step_laws.specs.live_model.staging_files.Keeps.{Staged};
ghost use Rattle.file_calls.specs.Answers.{IsEnded, stat_by};
ghost use Rattle.file_calls.specs.Gathers.{IsGatheredEnd};

use crate::names::outcomes::{NoMemory, Told, after_fault, answered};
use eof_laws::FileTable;
use layout_model::{Inode, Kind};
use live_step_laws::KSplit;
use posix_types::{NameList, Path, Reply, Stat};
use std::alloc::Global;

// What an inode line says of a node: of a file the size by what is staged of it.
fn stat_of(files: &FileTable, ino: u32, inode: &Inode) -> Stat
    requires { inode.now.kind ≡ File → ino < length files.now.sizes }
    ensures { result ≡ stat_by inode.now.kind (size_in files.now ino) }
{
    match inode.kind {
        Kind::File => Stat::File(files.size(ino)),
        Kind::Directory => Stat::Directory,
        Kind::Free => Stat::Directory,
        Kind::Staging => Stat::Directory,
    }
}

/// What stands at a path. It takes no step.
pub fn stat(k: &KSplit, files: &FileTable, path: &Path) -> Told
    requires { length files.now.sizes ≡ length k.now.volume.inodes }
    ensures ended { (who : Who) (t : Tables) (power : Supply) → is_on power ≡ true
        → IsEnded who (Call.Stat path.now) k.now t files.now k.now t files.now power power
        (Ok result) }
    ensures gathers { (who : Who) (t : Tables) (a : Staged) (power : Supply) → is_on power ≡ true
        → IsGatheredEnd who (Call.Stat path.now) k.now t a files.now k.now t a files.now power power
        (Ok result) }
{
    match k.find(path) {
        Err(errno) => answered(Reply::Error(errno)),
        Ok(ino) => match k.node(ino) {
            Some(inode) => answered(Reply::Stat(stat_of(files, ino, &inode))),
            None => answered(Reply::Stat(Stat::Directory)),
        },
    }
}

/// The names in the directory at a path, in the order of their bytes. It takes memory for them, and
/// no step.
pub fn list(alloc: Global, k: &KSplit, path: &Path) -> Result<Told, NoMemory>
    ensures ended { (who : Who) (t : Tables) (f : Files) (power : Supply) → is_on power ≡ true
        → IsEnded who (Call.List path.now) k.now t f k.now t f power power result }
    ensures gathers { (who : Who) (t : Tables) (a : Staged) (f : Files) (power : Supply)
        → is_on power ≡ true
        → IsGatheredEnd who (Call.List path.now) k.now t a f k.now t a f power power result }
{
    match k.list(alloc, path) {
        Ok(names) => Ok(answered(Reply::Names(NameList { names }))),
        Err(fault) => after_fault(fault),
    }
}
