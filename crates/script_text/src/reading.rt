//! What was read of a script, up to some line.
ghost use Rattle.std.specs.Prelude.{◌≡◌, ◌+◌, ◌<◌, ◌≤◌, ◌++◌, ◌∷◌, [], List, length, IfOk, OnOk, false};
ghost use Rattle.posix_types.specs.declared.call.Call.{Call};
ghost use Rattle.script_text.specs.Scripts.{scripts_in};
ghost use Rattle.script_text.specs.Reached.{breaks_in, IsReached, thread_count, threads_so_far, with_call, with_thread};
ghost use Rattle.script_text.specs.declared.kinds.Kind.{Kind};

use crate::kinds::Kind;
use posix_types::{Call, CallList, Scripts};
use std::alloc::{AllocError, Global};
use std::marker::Model;
use std::mem;

/// The most threads of a script.
const MOST_THREADS: usize = 8;

/// The most calls of a script, of all threads and the set-up together.
const MOST_CALLS: u32 = 4096;

/// Where the next call goes: to thread 0, which has no heading then, to the set-up, or to the last
/// thread.
#[derive(Clone, Copy)]
pub(crate) enum Section {
    Unbegun,
    SetUp,
    Thread,
}

/// What was read so far: the set-up, the threads before the last, and the calls of the last one,
/// with how many calls there are in all.
#[derive(Drop)]
pub(crate) struct Reading {
    section: Section,
    setup: Vec<Call>,
    threads: Vec<CallList>,
    calls: Vec<Call>,
    count: u32,
}

impl Model for Reading {
    ghost use Rattle.script_text.specs.Reached.{State};

    ghost Value = { State };

    ghost view = { λ reading. record {
      section = reading.section;
      setup = reading.setup.items;
      threads = reading.threads.items;
      calls = reading.calls.items;
      count = reading.count;
    } };
}

impl Reading {
    ghost use Rattle.script_text.specs.declared.reading.Section.{Section};

    /// Nothing was read.
    pub(crate) fn new(alloc: Global) -> Reading
        ensures { IsReached result [] }
    {
        Reading {
            section: Section::Unbegun,
            setup: Vec::new(alloc),
            threads: Vec::new(alloc),
            calls: Vec::new(alloc),
            count: 0,
        }
    }

    /// How many threads have begun.
    fn thread_count(&self) -> usize
        ensures { result ≡ thread_count self.now }
    {
        match self.section {
            Section::Thread => self.threads.len() + 1,
            _ => self.threads.len(),
        }
    }

    /// Whether a line of this kind may not stand behind what was read.
    pub(crate) fn breaks(&self, kind: &Kind) -> bool
        ensures { result ≡ breaks_in self.now kind.now }
    {
        match kind {
            Kind::Passed => false,
            Kind::SetUp => !matches!(self.section, Section::Unbegun),
            Kind::Thread => self.thread_count() >= MOST_THREADS,
            Kind::Calls(_) => self.count >= MOST_CALLS,
            Kind::Unread => true,
        }
    }

    /// Begins the set-up.
    fn begin_set_up(&mut self)
        ensures { self.new ≡ record self.old { section = Section.SetUp } }
    {
        self.section = Section::SetUp;
    }

    /// Ends the last thread, if one has begun, and begins the next.
    fn begin_thread(&mut self, alloc: Global) -> Result<(), AllocError>
        ensures { OnOk result (self.new ≡ with_thread self.old) }
    {
        if matches!(self.section, Section::Thread) {
            let calls = mem::replace(&mut self.calls, Vec::new(alloc));
            self.threads.push(CallList { calls })?;
        }
        self.section = Section::Thread;
        Ok(())
    }

    /// Puts a call where the section says.
    fn add_call(&mut self, call: Call) -> Result<(), AllocError>
        requires { self.old.count < 4096 }
        ensures { OnOk result (self.new ≡ with_call self.old call) }
    {
        match self.section {
            Section::SetUp => self.setup.push(call)?,
            _ => {
                self.calls.push(call)?;
                self.section = Section::Thread;
            }
        }
        self.count += 1;
        Ok(())
    }

    /// Takes a line that may stand behind what was read.
    pub(crate) fn take(&mut self, alloc: Global, kind: Kind) -> Result<(), AllocError>
        requires { breaks_in self.old kind ≡ false }
        ensures { OnOk result ((before : List Kind) → IsReached self.old before
            → IsReached self.new (before ++ kind ∷ [])) }
    {
        match kind {
            Kind::Passed => {}
            Kind::SetUp => self.begin_set_up(),
            Kind::Thread => self.begin_thread(alloc)?,
            Kind::Calls(call) => self.add_call(call)?,
            Kind::Unread => unreachable!(),
        }
        Ok(())
    }

    /// The scripts that were read.
    pub(crate) fn finish(self) -> Result<Scripts, AllocError>
        ensures { IfOk result (λ scripts. (before : List Kind) → IsReached self before
            → scripts ≡ scripts_in before) }
    {
        let Reading {
            section,
            setup,
            threads,
            calls,
            count: _,
        } = self;
        let threads = with_last(section, threads, calls)?;
        Ok(Scripts {
            setup: CallList { calls: setup },
            threads,
        })
    }
}

/// The threads with the last one, where one has begun.
fn with_last(
    section: Section,
    mut threads: Vec<CallList>,
    calls: Vec<Call>,
) -> Result<Vec<CallList>, AllocError>
    ensures { IfOk result (λ all. all.items ≡ threads_so_far section threads.items calls.items) }
{
    match section {
        Section::Thread => {
            threads.push(CallList { calls })?;
            Ok(threads)
        }
        _ => Ok(threads),
    }
}
