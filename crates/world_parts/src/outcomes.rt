//! What the calls of a World answer, and the call that a power loss cut.
use pm_lines::Pm;
use posix_types::{Call, Item, Who};
use world_view_laws::{Job, Over};

/// How a call began.
#[derive(Drop)]
pub enum Begun {
    /// It returned: its item stands at the end of the history.
    Done,
    /// It is logged, and out from now on.
    Job(Job),
    /// It waits for a job of this caller, of the file with this inode.
    Busy { ino: u32, holder: Who },
    /// The round is over.
    RoundOver(Over),
    /// The power is off.
    PowerLost,
    /// The caller's script has no call left.
    ScriptEnd,
}

/// Whether a caller can begin its next call.
#[derive(Clone, Copy)]
pub enum Ready {
    Yes,
    /// It waits for a job of this caller, of the file with this inode.
    Busy { ino: u32, holder: Who },
    RoundOver,
    ScriptEnd,
    /// It has a job out.
    Out,
}

/// How a job finished.
#[derive(Clone, Copy)]
pub enum Finished {
    /// It returned: its item stands at the end of the history.
    Done,
    /// The power is off: it stays an unfinished call.
    PowerLost,
}

/// A call that lost its power in `begin`, with its caller.
#[derive(Drop)]
pub struct Unfinished {
    pub who: Who,
    pub call: Call,
}

/// What a power loss leaves: the device, the calls that returned, and those that had begun and did not, in the
/// order of their beginning.
#[derive(Drop)]
pub struct Crashed {
    pub pm: Pm,
    pub history: Vec<Item>,
    pub unfinished: Vec<(Who, Call)>,
}

/// How a run ends: whole, with the device and the calls that returned, or by a power loss.
#[derive(Drop)]
pub enum Ended {
    Whole { pm: Pm, history: Vec<Item> },
    Lost(Crashed),
}
