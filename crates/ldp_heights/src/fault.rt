ghost use Rattle.std.specs.Prelude.{◌≡◌};
ghost use Rattle.ldp_heights.specs.declared.fault.HeightFault.TheVariants.{Memory};

use std::alloc::{AllocError, AllocFailed};

/// A word of the header of an Esri ASCII grid; the corner's and the centre's form of a coordinate
/// are one word.
#[derive(Clone, Copy, Debug, PartialEq, Eq)]
pub enum Word {
    Ncols,
    Nrows,
    X,
    Y,
    Cellsize,
    Nodata,
}

/// The first fault of a text; a place counts the bytes before it.
#[derive(Clone, Copy, Debug, PartialEq, Eq)]
pub enum HeightFault {
    MissingWord(Word),
    UnknownWord(usize),
    RepeatedWord(usize),
    BadNumber(usize),
    OutOfRange(usize),
    /// More than 4,000,000 places.
    TooMany,
    /// With the number of heights found.
    TooFew(u32),
    Trailing(usize),
    Memory,
}

impl From<AllocError> for HeightFault {
    ghost from_gives = { λ _ fault. fault ≡ Memory };

    fn from(_fault: AllocError) -> HeightFault {
        HeightFault::Memory
    }
}

impl<T: Drop> From<AllocFailed<T>> for HeightFault {
    ghost from_gives = { λ _ fault. fault ≡ Memory };

    fn from(_fault: AllocFailed<T>) -> HeightFault {
        HeightFault::Memory
    }
}
