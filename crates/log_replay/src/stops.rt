//! Why a part of a mount is left.
ghost use Rattle.std.specs.Prelude.{◌≡◌};
ghost use Rattle.log_replay.specs.Quiet.{left};

use k_check::Commit;
use std::alloc::AllocError;

/// Why a part of a mount is left.
pub enum Stop {
    /// The power is off.
    PowerLost,
    /// There is no memory.
    NoMemory,
}

impl From<AllocError> for Stop {
    ghost use Rattle.log_replay.specs.declared.stops.Stop.TheVariants.{NoMemory};

    ghost from_gives = { λ _ stop. stop ≡ NoMemory };

    fn from(_: AllocError) -> Stop {
        Stop::NoMemory
    }
}

// Goes on where a change was done.
pub(crate) fn left(answer: Result<Commit, AllocError>) -> Result<(), Stop>
    ensures { result ≡ left answer }
{
    match answer? {
        Commit::Done => Ok(()),
        Commit::PowerLost => Err(Stop::PowerLost),
    }
}
