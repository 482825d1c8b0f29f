//! How a call ends.
ghost use Rattle.std.specs.Prelude.{◌≡◌};
ghost use Rattle.open_files.specs.posix_tables.Outcomes.{answer};
ghost use Rattle.file_calls.specs.Answers.{told_of};

use live_step_laws::KFault;
use posix_types::{Errno, Outcome, Reply};
use std::alloc::AllocError;

/// Whether a call was answered, or the power went in it.
#[derive(Drop)]
pub enum Told {
    Answered(Outcome),
    PowerLost,
}

/// There is no memory for a call, which did nothing.
#[derive(Clone, Copy, Debug, PartialEq, Eq)]
pub struct NoMemory {}

impl From<AllocError> for NoMemory {
    fn from(_error: AllocError) -> NoMemory {
        NoMemory {}
    }
}

/// An answer without a word on room.
pub fn answered(reply: Reply) -> Told
    ensures { result ≡ Told.Answered (answer reply) }
{
    Told::Answered(Outcome { reply, room: None })
}

/// What a fault of K-Split makes of a call.
pub fn after_fault(fault: KFault) -> Result<Told, NoMemory>
    ensures { result ≡ told_of fault }
{
    match fault {
        KFault::Refused(errno) => Ok(answered(Reply::Error(errno))),
        KFault::Room(room) => Ok(Told::Answered(Outcome {
            reply: Reply::Error(Errno::ENOSPC),
            room: Some(room),
        })),
        KFault::NoMemory => Err(NoMemory {}),
        KFault::PowerLost => Ok(Told::PowerLost),
    }
}
