ghost use Rattle.std.specs.Prelude.{◌≡◌};
ghost use Rattle.ldp_zone.specs.declared.fault.ZoneFault.TheVariants.{Memory};

use std::alloc::{AllocError, AllocFailed};

/// The first fault of a text. A place counts the bytes before it; a ring counts the rings before it
/// in the whole text.
#[derive(Clone, Copy, Debug, PartialEq, Eq)]
pub enum ZoneFault {
    NotAPolygon(usize),
    /// A polygon with M values.
    Measured(usize),
    BadNumber(usize),
    OutOfRange(usize),
    /// The ring's last point is not its first.
    OpenRing(u32),
    /// The ring has fewer than four points.
    ShortRing(u32),
    /// More than 10,000 points.
    TooManyPoints,
    Trailing(usize),
    Memory,
}

impl From<AllocError> for ZoneFault {
    ghost from_gives = { λ _ fault. fault ≡ Memory };

    fn from(_fault: AllocError) -> ZoneFault {
        ZoneFault::Memory
    }
}

impl<T: Drop> From<AllocFailed<T>> for ZoneFault {
    ghost from_gives = { λ _ fault. fault ≡ Memory };

    fn from(_fault: AllocFailed<T>) -> ZoneFault {
        ZoneFault::Memory
    }
}
