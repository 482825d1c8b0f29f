//! The parts of a job: a file is read, and an output is put.
ghost use Rattle.std.specs.Prelude.{◌≡◌, ◌≢◌, ◌≤◌, List, ℕ, Err, IfOk, IfErr};
ghost use Rattle.outside.specs.Outside.{AreOfFile, IsAbsent, Rose, Takes, TakesFront};
ghost use Rattle.split_top.specs.Jobs.{IsUnread, IsPutOrNot};

use command_line::{FileName, Status};
use outside::{FileFault, Files, Sink, SinkFault};
use std::alloc::Global;

/// The status for a file that is not there.
fn missing(alloc: Global, name: &str) -> Status
    ensures kind { IsUnread result }
    ensures never { result ≢ Status.ReadFault }
    ensures name { (found : List ℕ) → result ≡ Status.NoSuchFile found → found ≡ name.now }
{
    match Vec::from_slice(alloc, name.as_bytes()) {
        Ok(bytes) => Status::NoSuchFile(FileName { bytes }),
        Err(_) => Status::NoMemory,
    }
}

/// Reads a file whole.
pub(crate) fn read_file<F: Files>(
    alloc: Global,
    files: &mut F,
    name: &str,
) -> Result<Vec<u8>, Status>
    ensures bytes { IfOk result (λ bytes. AreOfFile (F.told files.old) name.now bytes.items) }
    ensures told { F.told files.new ≡ F.told files.old }
    ensures misses { F.misses files.old ≤ F.misses files.new }
    ensures faults { F.faults files.old ≤ F.faults files.new }
    ensures kind { IfErr result IsUnread }
    ensures missing { (found : List ℕ) → result ≡ Err (Status.NoSuchFile found) → (found ≡ name.now) × IsAbsent (F.told files.old) name.now × Rose (F.misses files.old) (F.misses files.new) }
    ensures failed { result ≡ Err Status.ReadFault → Rose (F.faults files.old) (F.faults files.new) }
{
    match files.read(alloc, name) {
        Ok(bytes) => Ok(bytes),
        Err(FileFault::Missing) => Err(missing(alloc, name)),
        Err(FileFault::Failed) => Err(Status::ReadFault),
        Err(FileFault::NoMemory) => Err(Status::NoMemory),
    }
}

/// Puts an output at once.
pub(crate) fn put_output<K: Sink>(out: &mut K, output: &[u8]) -> Status
    ensures kind { IsPutOrNot result }
    ensures done { result ≡ Status.Done → Takes (K.told out.old) (K.told out.new) output.now }
    ensures front { result ≢ Status.Done → TakesFront (K.told out.old) (K.told out.new) output.now }
    ensures failed { result ≡ Status.WriteFault → Rose (K.faults out.old) (K.faults out.new) }
{
    match out.put(output) {
        Ok(()) => Status::Done,
        Err(SinkFault::Failed) => Status::WriteFault,
        Err(SinkFault::NoMemory) => Status::NoMemory,
    }
}
