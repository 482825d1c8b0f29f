//! The two traits, and how a call of theirs may fail.
ghost use Rattle.std.specs.Prelude.{◌≡◌, ◌≤◌, ◌<◌, ℕ, List, Option, IfOk, OnOk, OnErr, IsErrOf};
ghost use Rattle.outside.specs.Outside.{FileList, AreOfFile, IsAbsent, IsReplaced, Rose, Takes, TakesFront};

use std::alloc::Global;
use thiserror::Error;

/// Why a file was not read or replaced.
#[derive(Clone, Copy, Debug, PartialEq, Eq, Error)]
pub enum FileFault {
    /// There is no file of this name. Only a read answers it.
    #[error("there is no such file")]
    Missing,
    /// Reading or writing failed.
    #[error("the file was not read or written")]
    Failed,
    /// No memory was left.
    #[error("no memory is left")]
    NoMemory,
}

/// Why bytes were not taken whole.
#[derive(Clone, Copy, Debug, PartialEq, Eq, Error)]
pub enum SinkFault {
    /// Writing failed.
    #[error("the output was not written")]
    Failed,
    /// No memory was left.
    #[error("no memory is left")]
    NoMemory,
}

/// Files, by name, which are read and replaced whole.
pub trait Files {
    /// The names with their bytes, where the object tells them.
    ghost told: { Self → Option FileList };

    /// How often reading or writing failed, and how often a file was missing. Both stand still at
    /// 2^64 - 1.
    ghost faults: { Self → ℕ };

    ghost misses: { Self → ℕ };

    /// The bytes of a file. No read changes the list.
    fn read(&mut self, alloc: Global, name: &str) -> Result<Vec<u8>, FileFault>
        ensures bytes { IfOk result (λ bytes. AreOfFile (told self.old) name.now bytes.items) }
        ensures told { told self.new ≡ told self.old }
        ensures faults { faults self.old ≤ faults self.new }
        ensures misses { misses self.old ≤ misses self.new }
        ensures failed { IsErrOf result FileFault.Failed
            → Rose (faults self.old) (faults self.new) }
        ensures missing { IsErrOf result FileFault.Missing
            → Rose (misses self.old) (misses self.new) }

        // A miss is of a file that is not there.
        ensures absent { IsErrOf result FileFault.Missing → IsAbsent (told self.old) name.now }
        ensures missed { misses self.old < misses self.new → IsAbsent (told self.old) name.now };

    /// Sets the bytes of one file, and makes it where it was missing. A refusal leaves the list.
    fn replace(&mut self, name: &str, bytes: &[u8]) -> Result<(), FileFault>
        ensures replaced { OnOk result
            (IsReplaced (told self.old) (told self.new) name.now bytes.now) }
        ensures kept { OnErr result (told self.new ≡ told self.old) }
        ensures faults { faults self.old ≤ faults self.new }
        ensures misses { misses self.new ≡ misses self.old }
        ensures failed { IsErrOf result FileFault.Failed
            → Rose (faults self.old) (faults self.new) }
        ensures never_missing { IsErrOf result FileFault.Missing → ⊥ };
}

/// A place that output goes to.
pub trait Sink {
    /// The bytes taken so far, where the object tells them.
    ghost told: { Self → Option (List ℕ) };

    /// How often writing failed. It stands still at 2^64 - 1.
    ghost faults: { Self → ℕ };

    /// Takes the bytes. A refusal leaves a front of them taken.
    fn put(&mut self, bytes: &[u8]) -> Result<(), SinkFault>
        ensures taken { OnOk result (Takes (told self.old) (told self.new) bytes.now) }
        ensures front { OnErr result (TakesFront (told self.old) (told self.new) bytes.now) }
        ensures faults { faults self.old ≤ faults self.new }
        ensures failed { IsErrOf result SinkFault.Failed
            → Rose (faults self.old) (faults self.new) };
}
