ghost use Rattle.std.specs.Prelude.{◌≡◌};

use crate::fault::{GridFault, Part};
use ldp_design::Key;

/// A key of a family.
#[derive(Clone, Copy)]
pub struct Place {
    pub family: u16,
    pub key: Key,
}

impl Place {
    /// The fault of a key that may not be left out, or of a part of its table.
    pub fn missing_key(self, part: Part) -> GridFault
        ensures { result ≡ GridFault.MissingKey self.family self.key part }
    {
        GridFault::MissingKey {
            family: self.family,
            key: self.key,
            part,
        }
    }

    /// The fault of a table with a key that it may not have; the table is that of this key, or the
    /// family's.
    pub fn unknown_key(self) -> GridFault
        ensures { result ≡ GridFault.UnknownKey self.family self.key }
    {
        GridFault::UnknownKey {
            family: self.family,
            table: self.key,
        }
    }

    /// The fault of a value that is of another type than the key's, or no number.
    pub fn bad_value(self, part: Part) -> GridFault
        ensures { result ≡ GridFault.BadValue self.family self.key part }
    {
        GridFault::BadValue {
            family: self.family,
            key: self.key,
            part,
        }
    }

    /// The fault of a number that the key may not have.
    pub fn out_of_range(self, part: Part) -> GridFault
        ensures { result ≡ GridFault.OutOfRange self.family self.key part }
    {
        GridFault::OutOfRange {
            family: self.family,
            key: self.key,
            part,
        }
    }

    /// The fault of a step of 0 or below.
    pub fn step_not_positive(self) -> GridFault
        ensures { result ≡ GridFault.StepNotPositive self.family self.key }
    {
        GridFault::StepNotPositive {
            family: self.family,
            key: self.key,
        }
    }
}
