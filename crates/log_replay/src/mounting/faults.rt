//! Why a device is not mounted.
ghost use Rattle.std.specs.Prelude.{◌≡◌};

use k_check::BadImage;
use pm_lines::Pm;
use std::alloc::AllocError;
use thiserror::Error;

/// Why a device is not mounted.
#[derive(Debug, Drop, Error)]
pub enum MountFault {
    /// Its image breaks a rule: this is the first, with the lowest place.
    #[error("the image breaks rule {} at {}", .0.rule, .0.place)]
    Bad(BadImage),
    /// The power is off; here is the device.
    #[error("the power is lost")]
    PowerLost(Pm),
    /// There is no memory.
    #[error("out of memory")]
    NoMemory,
}

impl From<AllocError> for MountFault {
    ghost use Rattle.log_replay.specs.declared.mounting.faults.MountFault.TheVariants.{NoMemory};

    ghost from_gives = { λ _ fault. fault ≡ NoMemory };

    fn from(_: AllocError) -> MountFault {
        MountFault::NoMemory
    }
}
