ghost use Rattle.std.specs.Prelude.{◌≡◌};
ghost use Rattle.ldp_alignment.specs.declared.place_fault.PlaceFault.TheVariants.{Memory};

use std::alloc::{AllocError, AllocFailed};

/// Why a line gets no heights.
#[derive(Clone, Copy, Debug, PartialEq, Eq)]
pub enum PlaceFault {
    /// The first station where there is no height, counted from 0.
    NoHeight(u32),
    Memory,
}

impl From<AllocError> for PlaceFault {
    ghost from_gives = { λ _ fault. fault ≡ Memory };

    fn from(_fault: AllocError) -> PlaceFault {
        PlaceFault::Memory
    }
}

impl<T: Drop> From<AllocFailed<T>> for PlaceFault {
    ghost from_gives = { λ _ fault. fault ≡ Memory };

    fn from(_fault: AllocFailed<T>) -> PlaceFault {
        PlaceFault::Memory
    }
}
