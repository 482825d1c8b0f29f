//! Why a change of K-Split is not made.
ghost use Rattle.std.specs.Prelude.{◌≡◌};
ghost use Rattle.k_split.specs.Faults.{fault_of};

use k_map_plans::PlanFault;
use posix_types::{Errno, Room};
use thiserror::Error;

/// Why a change is not made.
///
/// # Errors
///
/// What each change of [`KSplit`](crate::KSplit) answers, beside its value:
///
/// - `Refused` exactly where the first row of a change of names that fits is this error: nothing is
///   changed, and no step is taken. No change of maps or of bytes answers it.
/// - `Room` of a change of names exactly where the first row that fits says that inode lines or name
///   lines are used up, and of `fill_holes` exactly where there is a hole and fewer blocks are free
///   than the holes and the reserve less 2: nothing is changed, and no step is taken. No other
///   change answers it.
/// - `NoMemory` only where no row fits: nothing is changed, and no step is taken, but that the open batch
///   was committed where blocks that wait were wanted. `write_in_place`, `clean_tail` and `write_staged`
///   take no memory and never answer it.
/// - `PowerLost` exactly where the power is off at the return: nothing is changed if it was off at
///   the call; else the change was cut off, and each image has the old volume or the new one, and of
///   bytes that are written in place each is the old one or the new one. The `KSplit` is lost.
///
/// # Steps
///
/// A change of names takes at most 256 steps of its power, one of maps at most 2^15, with 1,024 a
/// hole more where holes are filled, and each at least one where it has something to do and is done.
/// Where changes gather one of names takes none but those of a commit, which takes at most 4,112, and
/// one of maps at most 4,112 more. Bytes in place take at most 576 a block that they reach, and one more.
/// A step is a store, a flush or a fence of the device. A `KSplit` that is lost is handed no power that is on.
#[derive(Clone, Copy, Debug, PartialEq, Eq, Error)]
pub enum KFault {
    /// The call answers this error.
    #[error("the call is refused: {0:?}")]
    Refused(Errno),
    /// ENOSPC: inode lines, name lines or data blocks are used up.
    #[error("there is no room: {0:?}")]
    Room(Room),
    /// The power went. Each image has the volume before the change or the one after it.
    #[error("the power is lost")]
    PowerLost,
    /// There is no memory for the change.
    #[error("out of memory")]
    NoMemory,
}

/// The fault of a change that was not planned.
pub(crate) fn fault_of(fault: PlanFault) -> KFault
    ensures { result ≡ fault_of fault }
{
    match fault {
        PlanFault::Refused(errno) => KFault::Refused(errno),
        PlanFault::Room(room) => KFault::Room(room),
        PlanFault::NoMemory => KFault::NoMemory,
    }
}
