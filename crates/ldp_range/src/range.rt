ghost use Rattle.std.specs.Prelude.{◌≡◌, ◌≤ℤ◌, ℤ, Some, IfSome};
ghost use Rattle.std.specs.Int.{int_min, int_max};
ghost use Rattle.ldp_num.specs.Number.{IsNumber};
ghost use Rattle.ldp_num.specs.Ranges.{IsRange, ends};
ghost use Rattle.ldp_range.specs.Range.{twice, pair_hull, pair_low_abs, pair_high_abs};

use crate::choice::{greater, lesser, magnitude};
use crate::product::product;
use crate::quotient::quotient;
use crate::square::square;
use ldp_num::Num;
use std::marker::Model;

/// All numbers from a low end to a high end, carrier 1, in units of 10^-15.
#[derive(Clone, Copy, Debug, PartialEq, Eq)]
pub struct Range {
    lo: i128,
    hi: i128,
}

impl Model for Range {
    ghost use Rattle.std.specs.Prelude.{ℤ};
    ghost use Rattle.ldp_num.specs.Ranges.{IsRange};

    ghost Value = { ℤ × ℤ };

    ghost view = { λ r. (r.lo, r.hi) };

    ghost invariant = { λ r. IsRange r.lo r.hi };

    ghost inverse = { λ a. record { lo = a.0; hi = a.1 } };
}

/// The range of one number.
#[inline(always)]
pub fn sharp(v: i128) -> Range
    requires { IsNumber v }
    ensures { result ≡ twice v }
{
    Range { lo: v, hi: v }
}

/// The least range that holds both.
#[inline(always)]
pub fn hull(a: Range, b: Range) -> Range
    ensures { result ≡ pair_hull a b }
{
    Range {
        lo: lesser(a.lo, b.lo),
        hi: greater(a.hi, b.hi),
    }
}

// Where the lesser of a number of each lies.
#[inline(always)]
pub(crate) fn least(x: Range, y: Range) -> Range
    ensures { result ≡ (int_min x.0 y.0, int_min x.1 y.1) }
{
    Range {
        lo: lesser(x.lo, y.lo),
        hi: lesser(x.hi, y.hi),
    }
}

// Where the greater of a number of each lies.
#[inline(always)]
pub(crate) fn greatest(x: Range, y: Range) -> Range
    ensures { result ≡ (int_max x.0 y.0, int_max x.1 y.1) }
{
    Range {
        lo: greater(x.lo, y.lo),
        hi: greater(x.hi, y.hi),
    }
}

/// The range of two ends, where both are defined.
#[inline(always)]
pub fn paired(low: Option<i128>, high: Option<i128>) -> Option<Range>
    requires low { IfSome low IsNumber }
    requires high { IfSome high IsNumber }
    requires ordered { (l h : ℤ) → low ≡ Some l → high ≡ Some h → l ≤ℤ h }
    ensures { result ≡ ends low high }
{
    match (low, high) {
        (Some(lo), Some(hi)) => Some(Range { lo, hi }),
        _ => None,
    }
}

impl Range {
    /// The low end, in units of 10^-15.
    #[inline(always)]
    pub fn lo(self) -> i128
        ensures value { result ≡ self.0 }
        ensures range { IsRange self.0 self.1 }
    {
        self.lo
    }

    /// The high end, in units of 10^-15.
    #[inline(always)]
    pub fn hi(self) -> i128
        ensures value { result ≡ self.1 }
        ensures range { IsRange self.0 self.1 }
    {
        self.hi
    }

    /// The least absolute value of a number in the range, in units of 10^-15.
    #[inline(always)]
    pub fn low_abs(self) -> i128
        ensures value { result ≡ pair_low_abs self }
        ensures number { IsNumber result }
    {
        if self.lo <= 0 && 0 <= self.hi {
            0
        } else {
            lesser(magnitude(self.lo), magnitude(self.hi))
        }
    }

    /// The greatest absolute value of a number in the range, in units of 10^-15.
    #[inline(always)]
    pub fn high_abs(self) -> i128
        ensures value { result ≡ pair_high_abs self }
        ensures number { IsNumber result }
    {
        greater(magnitude(self.lo), magnitude(self.hi))
    }
}

impl Num for Range {
    ghost use Rattle.ldp_num.specs.Written.{pair_out};

    const CARRIER: u32 = 1;

    ghost CARRIER = { 1 };

    ghost meaning = { pair_out };

    #[inline(always)]
    fn constant(v: i128) -> Range {
        sharp(v)
    }

    #[inline(always)]
    fn add(self, other: Range) -> Option<Range> {
        paired(
            ldp_num::add(self.lo, other.lo),
            ldp_num::add(self.hi, other.hi),
        )
    }

    #[inline(always)]
    fn sub(self, other: Range) -> Option<Range> {
        paired(
            ldp_num::sub(self.lo, other.hi),
            ldp_num::sub(self.hi, other.lo),
        )
    }

    #[inline(always)]
    fn mul(self, other: Range) -> Option<Range> {
        product(self.lo, self.hi, other.lo, other.hi)
    }

    #[inline(always)]
    fn div(self, other: Range) -> Option<Range> {
        quotient(self.lo, self.hi, other.lo, other.hi)
    }

    #[inline(always)]
    fn sq(self) -> Option<Range> {
        square(self.lo, self.hi)
    }

    #[inline(always)]
    fn sqrt(self) -> Option<Range> {
        paired(ldp_num::sqrt(self.lo), ldp_num::sqrt(self.hi))
    }

    #[inline(always)]
    fn need(self) -> Option<Range> {
        paired(ldp_num::need(self.lo), ldp_num::need(self.hi))
    }

    #[inline(always)]
    fn same(self, other: Range) -> bool {
        self.lo == other.lo && self.hi == other.hi
    }
}
