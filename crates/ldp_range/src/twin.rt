ghost use Rattle.std.specs.Prelude.{◌≡◌, ℤ};
ghost use Rattle.ldp_num.specs.Number.{IsNumber};
ghost use Rattle.ldp_num.specs.Twins.{both};
ghost use Rattle.ldp_range.specs.Twin.{ends_twin, twin_most, twin_fewest};

use crate::choice::{greater, opposite};
use crate::range::{Range, sharp};
use crate::twin_product::product;
use crate::twin_quotient::quotient;
use crate::twin_square::square;
use ldp_num::Num;
use std::marker::Model;

/// The low ends and the high ends of a number of ranges, each as a range, carrier 3.
#[derive(Clone, Copy, Debug, PartialEq, Eq)]
pub struct Twin {
    low: Range,
    high: Range,
}

impl Model for Twin {
    ghost use Rattle.ldp_num.specs.Twins.{TwinPair};

    ghost Value = { TwinPair };

    ghost view = { λ t. (t.low, t.high) };

    ghost inverse = { λ a. record { low = a.0; high = a.1 } };
}

// The twin of two ranges, where both are defined.
#[inline(always)]
pub(crate) fn joined(low: Option<Range>, high: Option<Range>) -> Option<Twin>
    ensures { result ≡ both low high }
{
    match (low, high) {
        (Some(low), Some(high)) => Some(Twin { low, high }),
        _ => None,
    }
}

impl Twin {
    /// The twin of the ranges whose low ends lie in the one and whose high ends lie in the other.
    #[inline(always)]
    pub fn new(low: Range, high: Range) -> Twin
        ensures { result ≡ (low, high) }
    {
        Twin { low, high }
    }

    /// The twin of one range.
    #[inline(always)]
    pub fn of_range(range: Range) -> Twin
        ensures { result ≡ ends_twin range }
    {
        Twin {
            low: sharp(range.lo()),
            high: sharp(range.hi()),
        }
    }

    /// Where the low ends lie.
    #[inline(always)]
    pub fn low(self) -> Range
        ensures { result ≡ self.0 }
    {
        self.low
    }

    /// Where the high ends lie.
    #[inline(always)]
    pub fn high(self) -> Range
        ensures { result ≡ self.1 }
    {
        self.high
    }

    /// No range of the twin has a least absolute value above this, in units of 10^-15.
    #[inline(always)]
    pub fn most(self) -> i128
        ensures value { result ≡ twin_most self }
        ensures number { IsNumber result }
    {
        greater(0, greater(self.low.hi(), opposite(self.high.lo())))
    }

    /// No range of the twin has a least absolute value below this, in units of 10^-15.
    #[inline(always)]
    pub fn fewest(self) -> i128
        ensures value { result ≡ twin_fewest self }
        ensures number { IsNumber result }
    {
        greater(0, greater(self.low.lo(), opposite(self.high.hi())))
    }
}

impl Num for Twin {
    ghost use Rattle.ldp_num.specs.Written.{twin_out};

    const CARRIER: u32 = 3;

    ghost CARRIER = { 3 };

    ghost meaning = { twin_out };

    #[inline(always)]
    fn constant(v: i128) -> Twin {
        Twin::of_range(sharp(v))
    }

    #[inline(always)]
    fn add(self, other: Twin) -> Option<Twin> {
        joined(self.low.add(other.low), self.high.add(other.high))
    }

    #[inline(always)]
    fn sub(self, other: Twin) -> Option<Twin> {
        joined(self.low.sub(other.high), self.high.sub(other.low))
    }

    #[inline(always)]
    fn mul(self, other: Twin) -> Option<Twin> {
        product(self, other)
    }

    #[inline(always)]
    fn div(self, other: Twin) -> Option<Twin> {
        quotient(self, other)
    }

    #[inline(always)]
    fn sq(self) -> Option<Twin> {
        square(self)
    }

    #[inline(always)]
    fn sqrt(self) -> Option<Twin> {
        joined(self.low.sqrt(), self.high.sqrt())
    }

    #[inline(always)]
    fn need(self) -> Option<Twin> {
        joined(self.low.need(), self.high.need())
    }

    #[inline(always)]
    fn same(self, other: Twin) -> bool {
        self.low.same(other.low) && self.high.same(other.high)
    }
}
