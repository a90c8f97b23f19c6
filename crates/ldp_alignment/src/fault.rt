ghost use Rattle.std.specs.Prelude.{◌≡◌};
ghost use Rattle.ldp_alignment.specs.declared.fault.LineFault.TheVariants.{Memory};

use std::alloc::{AllocError, AllocFailed};

/// The first fault of a text from left to right. A place counts the bytes before it; a station
/// counts the stations before it.
#[derive(Clone, Copy, Debug, PartialEq, Eq)]
pub enum LineFault {
    /// A number behind 100,000 stations.
    TooMany,
    BadNumber(usize),
    OutOfRange(usize),
    /// The chainage of this station is below that of the one before.
    Backward(u32),
    /// The text ends within a station; with the length of the text.
    Unfinished(usize),
    /// Fewer than two stations, with their number.
    TooFew(u32),
    Memory,
}

impl From<AllocError> for LineFault {
    ghost from_gives = { λ _ fault. fault ≡ Memory };

    fn from(_fault: AllocError) -> LineFault {
        LineFault::Memory
    }
}

impl<T: Drop> From<AllocFailed<T>> for LineFault {
    ghost from_gives = { λ _ fault. fault ≡ Memory };

    fn from(_fault: AllocFailed<T>) -> LineFault {
        LineFault::Memory
    }
}
