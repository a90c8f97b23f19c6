//! The operations of ranges as operations on their pairs of ends, and what twins ask of ranges.
ghost use Rattle.std.specs.Prelude.{◌≡◌, int_le, pos};
ghost use Rattle.ldp_num.specs.Ranges.{pair_add, pair_sub, pair_mul, pair_div, pair_sq};
ghost use Rattle.ldp_num.specs.Ranges.{pair_sqrt, pair_need};
ghost use Rattle.ldp_num.specs.Twins.{lesser_of, greater_of};

pub use crate::range::paired;
use crate::range::{Range, greatest, least};
use ldp_num::Num;

/// The sum.
#[inline(always)]
pub fn sum(a: Range, b: Range) -> Option<Range>
    ensures { result ≡ pair_add a b }
{
    a.add(b)
}

/// The difference.
#[inline(always)]
pub fn difference(a: Range, b: Range) -> Option<Range>
    ensures { result ≡ pair_sub a b }
{
    a.sub(b)
}

/// The product.
#[inline(always)]
pub fn times(a: Range, b: Range) -> Option<Range>
    ensures { result ≡ pair_mul a b }
{
    a.mul(b)
}

/// The quotient.
#[inline(always)]
pub fn over(a: Range, b: Range) -> Option<Range>
    ensures { result ≡ pair_div a b }
{
    a.div(b)
}

/// The square.
#[inline(always)]
pub fn squared(a: Range) -> Option<Range>
    ensures { result ≡ pair_sq a }
{
    a.sq()
}

/// The square root.
#[inline(always)]
pub fn root(a: Range) -> Option<Range>
    ensures { result ≡ pair_sqrt a }
{
    a.sqrt()
}

/// The range itself, where none of its numbers is below 0.
#[inline(always)]
pub fn natural(a: Range) -> Option<Range>
    ensures { result ≡ pair_need a }
{
    a.need()
}

// Whether no number of the range is below 0.
#[inline(always)]
pub(crate) fn is_natural(a: Range) -> bool
    ensures { result ≡ int_le (pos 0) a.0 }
{
    0 <= a.lo()
}

// Whether no number of the range is above 0.
#[inline(always)]
pub(crate) fn is_at_most_zero(a: Range) -> bool
    ensures { result ≡ int_le a.1 (pos 0) }
{
    a.hi() <= 0
}

// Where the lesser of a number of each lies.
#[inline(always)]
pub(crate) fn lesser_range(x: Option<Range>, y: Option<Range>) -> Option<Range>
    ensures { result ≡ lesser_of x y }
{
    match (x, y) {
        (Some(a), Some(b)) => Some(least(a, b)),
        _ => None,
    }
}

// Where the greater of a number of each lies.
#[inline(always)]
pub(crate) fn greater_range(x: Option<Range>, y: Option<Range>) -> Option<Range>
    ensures { result ≡ greater_of x y }
{
    match (x, y) {
        (Some(a), Some(b)) => Some(greatest(a, b)),
        _ => None,
    }
}
