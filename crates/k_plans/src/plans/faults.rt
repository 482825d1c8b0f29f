//! Why a change is not planned.
ghost use Rattle.std.specs.Prelude.{◌≢◌, Some};
ghost use Rattle.k_plans.specs.PlansPlans.{IsFaultOf};
ghost use Rattle.k_tables.specs.Refusals.{outcome_of};

use k_tables::Refusal;
use posix_types::{Errno, Room};
use thiserror::Error;

/// Why a change is not planned. The tables and the batch are as before.
#[derive(Clone, Copy, Debug, PartialEq, Eq, Error)]
pub enum PlanFault {
    /// The call answers this error, by the first of its rows that fits.
    #[error("the call is refused: {0:?}")]
    Refused(Errno),
    /// ENOSPC, by the first of its rows that fits: inode lines or name lines are used up.
    #[error("there is no room: {0:?}")]
    Room(Room),
    /// There is no memory for the change, which no row refuses.
    #[error("out of memory")]
    NoMemory,
}

// The fault of a refusal of a call that has something to do.
pub(crate) fn fault_of(refusal: Refusal) -> PlanFault
    requires { refusal ≢ Refusal.Idle }
    ensures fault { IsFaultOf result (Some (outcome_of refusal)) }
    ensures memory { result ≢ PlanFault.NoMemory }
{
    match refusal {
        Refusal::Errno(errno) => PlanFault::Refused(errno),
        Refusal::Room(room) => PlanFault::Room(room),
        Refusal::Idle => unreachable!(),
    }
}
