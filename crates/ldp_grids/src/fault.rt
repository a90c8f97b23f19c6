ghost use Rattle.std.specs.Prelude.{◌≡◌};
ghost use Rattle.ldp_grids.specs.declared.fault.GridFault.TheVariants.{Memory};

use ldp_design::Key;
use std::alloc::AllocError;

/// The part of a key's value: all of it, or a key of its axis table.
#[derive(Clone, Copy, Debug, PartialEq, Eq)]
pub enum Part {
    Whole,
    From,
    Step,
    Count,
}

/// The first fault of a text. Families are numbered from 1; what lies in none has number 0.
#[derive(Clone, Copy, Debug, PartialEq, Eq)]
pub enum GridFault {
    NotToml,
    /// No `family`, or one that is no array of tables, or an empty one.
    NoFamily,
    /// With the number of families, which stands still at its type's end.
    TooManyFamilies(u32),
    MissingKey { family: u16, key: Key, part: Part },
    /// A key that this table cannot have.
    UnknownKey { family: u16, table: Key },
    /// A value of another form than its key has, or a string that is no number.
    BadValue { family: u16, key: Key, part: Part },
    OutOfRange { family: u16, key: Key, part: Part },
    StepNotPositive { family: u16, key: Key },
    CrossesEquator { family: u16 },
    /// More than 10^12 designs in a family.
    TooManyDesigns { family: u16 },
    Memory,
}

impl From<AllocError> for GridFault {
    ghost from_gives = { λ _ fault. fault ≡ Memory };

    fn from(_fault: AllocError) -> GridFault {
        GridFault::Memory
    }
}
