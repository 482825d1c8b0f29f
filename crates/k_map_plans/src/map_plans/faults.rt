//! Why a change of maps is not planned.
use std::alloc::AllocError;
use thiserror::Error;

/// Why a change of maps is not planned. The tables and the batch are as before.
#[derive(Clone, Copy, Debug, PartialEq, Eq, Error)]
pub enum MapFault {
    /// It wants more blocks than are free.
    #[error("too few blocks are free")]
    Few,
    /// There is no memory for it.
    #[error("out of memory")]
    NoMemory,
}

impl From<AllocError> for MapFault {
    ghost use Rattle.std.specs.Prelude.{◌≡◌};
    ghost use Rattle.k_map_plans.specs.declared.map_plans.faults.MapFault.{MapFault};

    ghost from_gives = { λ _ fault. fault ≡ MapFault.NoMemory };

    fn from(_error: AllocError) -> MapFault {
        MapFault::NoMemory
    }
}
