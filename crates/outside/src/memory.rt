//! Files and a sink in memory, which tell what they hold and fail at the calls that they are given.
ghost use Rattle.std.specs.Prelude.{◌≡◌, ◌≢◌, ◌≤◌, ◌<◌, ◌+◌, ◌↔◌, ◌++◌, [], ◌∷◌, ℕ, List, Option, Some, Contains, IfOk, OnOk, OnErr, IsErrOf, IfSome, option_map, IsTrue, if◌then◌else◌};
ghost use Rattle.std.specs.Option.{option_copied};
ghost use Rattle.outside.specs.Outside.{AreOfFile, IsAbsent, IsReplaced, Rose, Takes, TakesFront, bytes_named};
ghost use Rattle.outside.specs.Memory.{FilesInMemory, SinkInMemory, shown, counted};

use crate::faults::{FileFault, Files, Sink, SinkFault};
use std::alloc::{AllocError, Global};
use std::marker::Model;

// The calls of an object: the numbers of those that are to fail, the number of the next, and how
// many failed.
#[derive(Drop)]
struct Calls {
    failing: Vec<u64>,
    next: u64,
    faults: u64,
}

// Counts a call, and as a failure where it is one that fails.
fn fails_now(calls: &mut Calls) -> bool
    ensures listed { IsTrue result ↔ Contains calls.old.failing.items calls.old.next }
    ensures counted { calls.new ≡ record calls.old {
      next = counted calls.old.next;
      faults = (if result then counted calls.old.faults else calls.old.faults);
    } }
    ensures later { calls.old.faults ≤ calls.new.faults }
    ensures rose { IsTrue result → Rose calls.old.faults calls.new.faults }
{
    let fails = calls.failing.contains(&calls.next);
    calls.next = calls.next.saturating_add(1);
    if fails {
        calls.faults = calls.faults.saturating_add(1);
    }
    fails
}

/// Files in memory. The calls of the listed numbers fail, counted from 0 over `read` and `replace`
/// alike.
#[derive(Drop)]
pub struct MemFiles {
    alloc: Global,
    files: Vec<(String, Vec<u8>)>,
    calls: Calls,
    misses: u64,
}

impl Model for MemFiles {
    ghost Value = { FilesInMemory };

    ghost view = { λ m. record {
      files = shown m.files.items;
      failing = m.calls.failing.items;
      calls = m.calls.next;
      faults = m.calls.faults;
      misses = m.misses;
    } };
}

// The bytes of the first file of this name.
fn find<'a>(files: &'a [(String, Vec<u8>)], name: &str) -> Option<&'a Vec<u8>>
    ensures { option_map (λ v. v.now.items) result ≡ bytes_named (shown files.now) name.now }
{
    for file in files {
        if file.0.as_str() == name {
            return Some(&file.1);
        }
    }
    None
}

// A file of its own, with copies of a name and bytes.
fn make(alloc: Global, name: &str, bytes: &[u8]) -> Result<(String, Vec<u8>), AllocError>
    ensures { IfOk result (λ file. shown (file ∷ []) ≡ (name.now, bytes.now) ∷ []) }
{
    let name = String::from_str(alloc, name)?;
    let bytes = Vec::from_slice(alloc, bytes)?;
    Ok((name, bytes))
}

impl MemFiles {
    /// These files, of which the first of a name counts, and the numbers of the calls that are to
    /// fail.
    pub fn new(alloc: Global, files: Vec<(String, Vec<u8>)>, failing: Vec<u64>) -> MemFiles
        ensures { result ≡ record {
          files = shown files.items;
          failing = failing.items;
          calls = 0;
          faults = 0;
          misses = 0;
        } }
    {
        MemFiles {
            alloc,
            files,
            calls: Calls {
                failing,
                next: 0,
                faults: 0,
            },
            misses: 0,
        }
    }

    /// The bytes of a file, if it is there.
    pub fn bytes(&self, name: &str) -> Option<&[u8]>
        ensures { option_copied result ≡ bytes_named self.now.files name.now }
    {
        let found = find(&self.files, name)?;
        Some(found.as_slice())
    }
}

impl Files for MemFiles {
    ghost told = { λ m. Some m.files };

    ghost faults = { λ m. m.faults };

    ghost misses = { λ m. m.misses };

    fn read(&mut self, alloc: Global, name: &str) -> Result<Vec<u8>, FileFault>
        ensures bytes { IfOk result (λ bytes.
            AreOfFile (Some self.old.files) name.now bytes.items) }
        ensures told { Some self.new.files ≡ Some self.old.files }
        ensures faults { self.old.faults ≤ self.new.faults }
        ensures misses { self.old.misses ≤ self.new.misses }
        ensures failed { IsErrOf result FileFault.Failed
            → Rose self.old.faults self.new.faults }
        ensures missing { IsErrOf result FileFault.Missing
            → Rose self.old.misses self.new.misses }
        ensures absent { IsErrOf result FileFault.Missing
            → IsAbsent (Some self.old.files) name.now }
        ensures missed { self.old.misses < self.new.misses
            → IsAbsent (Some self.old.files) name.now }

        // Just the listed calls fail.
        ensures listed { IsErrOf result FileFault.Failed
            ↔ Contains self.old.failing self.old.calls }
        ensures list { self.new.failing ≡ self.old.failing }
        ensures next { self.new.calls ≡ counted self.old.calls }
    {
        if fails_now(&mut self.calls) {
            return Err(FileFault::Failed);
        }
        match find(&self.files, name) {
            Some(bytes) => Vec::from_slice(alloc, bytes).map_err(|_| FileFault::NoMemory),
            None => {
                self.misses = self.misses.saturating_add(1);
                Err(FileFault::Missing)
            }
        }
    }

    fn replace(&mut self, name: &str, bytes: &[u8]) -> Result<(), FileFault>
        ensures replaced { OnOk result
            (IsReplaced (Some self.old.files) (Some self.new.files) name.now bytes.now) }
        ensures kept { OnErr result (Some self.new.files ≡ Some self.old.files) }
        ensures faults { self.old.faults ≤ self.new.faults }
        ensures misses { self.new.misses ≡ self.old.misses }
        ensures failed { IsErrOf result FileFault.Failed → Rose self.old.faults self.new.faults }
        ensures never_missing { IsErrOf result FileFault.Missing → ⊥ }

        // Just the listed calls fail.
        ensures listed { IsErrOf result FileFault.Failed
            ↔ Contains self.old.failing self.old.calls }
        ensures list { self.new.failing ≡ self.old.failing }
        ensures next { self.new.calls ≡ counted self.old.calls }
    {
        if fails_now(&mut self.calls) {
            return Err(FileFault::Failed);
        }
        let Ok(file) = make(self.alloc, name, bytes) else {
            return Err(FileFault::NoMemory);
        };
        if self.files.insert(0, file).is_err() {
            return Err(FileFault::NoMemory);
        }
        Ok(())
    }
}

/// A sink in memory. The puts of the listed numbers fail, counted from 0, and take nothing.
#[derive(Drop)]
pub struct MemSink {
    taken: Vec<u8>,
    calls: Calls,
}

impl Model for MemSink {
    ghost Value = { SinkInMemory };

    ghost view = { λ m. record {
      taken = m.taken.items;
      failing = m.calls.failing.items;
      calls = m.calls.next;
      faults = m.calls.faults;
    } };
}

impl MemSink {
    /// An empty sink, and the numbers of the puts that are to fail.
    pub fn new(alloc: Global, failing: Vec<u64>) -> MemSink
        ensures { result ≡ record {
          taken = [];
          failing = failing.items;
          calls = 0;
          faults = 0;
        } }
    {
        MemSink {
            taken: Vec::new(alloc),
            calls: Calls {
                failing,
                next: 0,
                faults: 0,
            },
        }
    }

    /// The bytes taken so far.
    pub fn bytes(&self) -> &[u8]
        ensures { result.now ≡ self.now.taken }
    {
        self.taken.as_slice()
    }
}

impl Sink for MemSink {
    ghost told = { λ m. Some m.taken };

    ghost faults = { λ m. m.faults };

    fn put(&mut self, bytes: &[u8]) -> Result<(), SinkFault>
        ensures taken { OnOk result (Takes (Some self.old.taken) (Some self.new.taken) bytes.now) }
        ensures front { OnErr result
            (TakesFront (Some self.old.taken) (Some self.new.taken) bytes.now) }
        ensures faults { self.old.faults ≤ self.new.faults }
        ensures failed { IsErrOf result SinkFault.Failed → Rose self.old.faults self.new.faults }

        // Just the listed puts fail.
        ensures listed { IsErrOf result SinkFault.Failed
            ↔ Contains self.old.failing self.old.calls }
        ensures list { self.new.failing ≡ self.old.failing }
        ensures next { self.new.calls ≡ counted self.old.calls }
    {
        if fails_now(&mut self.calls) {
            return Err(SinkFault::Failed);
        }
        if self.taken.extend_from_slice(bytes).is_err() {
            return Err(SinkFault::NoMemory);
        }
        Ok(())
    }
}
