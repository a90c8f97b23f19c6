//! Numbers and ranges, and operations on those that may be undefined.
ghost use Rattle.std.specs.Prelude.{◌≡◌, ◌≤ℤ◌, neg_ℤ, option_and_then, IfSome};
ghost use Rattle.std.specs.Int.{int_min, int_max};
ghost use Rattle.ldp_num.specs.Number.{IsNumber};
ghost use Rattle.ldp_num.specs.Ranges.{pair_add, pair_sub, pair_mul, pair_div};
ghost use Rattle.ldp_num.specs.Slopes.{of_pair, plus, out, outward};

use ldp_num::add;
use ldp_range::pairs::{difference, over, paired, sum, times};
use ldp_range::{Range, hull, sharp};

/// The lesser of two numbers.
#[inline(always)]
pub fn lesser(a: i128, b: i128) -> i128
    requires left { IsNumber a }
    requires right { IsNumber b }
    ensures value { result ≡ int_min a b }
    ensures number { IsNumber result }
{
    if b < a { b } else { a }
}

/// The greater of two numbers.
#[inline(always)]
pub fn greater(a: i128, b: i128) -> i128
    requires left { IsNumber a }
    requires right { IsNumber b }
    ensures value { result ≡ int_max a b }
    ensures number { IsNumber result }
{
    if b < a { a } else { b }
}

/// The number on the other side of 0, as far from it.
#[inline(always)]
pub fn opposite(x: i128) -> i128
    requires { IsNumber x }
    ensures value { result ≡ neg_ℤ x }
    ensures number { IsNumber result }
{
    -x
}

/// The low end of a range.
#[inline(always)]
pub fn low(range: Range) -> i128
    ensures value { result ≡ range.0 }
    ensures number { IsNumber result }
    ensures ordered { result ≤ℤ range.1 }
{
    range.lo()
}

/// The high end of a range.
#[inline(always)]
pub fn high(range: Range) -> i128
    ensures value { result ≡ range.1 }
    ensures number { IsNumber result }
{
    range.hi()
}

/// The range from one number to another.
#[inline(always)]
pub fn spanned(low: i128, high: i128) -> Range
    requires low { IsNumber low }
    requires high { IsNumber high }
    requires ordered { low ≤ℤ high }
    ensures { result ≡ (low, high) }
{
    hull(sharp(low), sharp(high))
}

/// Some units more, where the number is defined.
#[inline(always)]
pub fn increased(x: Option<i128>, units: i128) -> Option<i128>
    requires number { IfSome x IsNumber }
    requires units { IsNumber units }
    ensures value { result ≡ plus x units }
    ensures number { IfSome result IsNumber }
{
    match x {
        Some(n) => add(n, units),
        None => None,
    }
}

/// The range whose high end is one unit further.
#[inline(always)]
pub fn further(range: Range) -> Option<Range>
    ensures { result ≡ out range }
{
    paired(Some(low(range)), add(high(range), 1))
}

/// The same of a range that may be undefined.
#[inline(always)]
pub fn outward_of(range: Option<Range>) -> Option<Range>
    ensures { result ≡ outward range }
{
    match range {
        Some(r) => further(r),
        None => None,
    }
}

/// The sum of two ranges, where both are defined.
#[inline(always)]
pub fn sum_of(x: Option<Range>, y: Option<Range>) -> Option<Range>
    ensures { result ≡ of_pair pair_add x y }
{
    match (x, y) {
        (Some(a), Some(b)) => sum(a, b),
        _ => None,
    }
}

/// A range less one that may be undefined.
#[inline(always)]
pub fn less(a: Range, x: Option<Range>) -> Option<Range>
    ensures { result ≡ option_and_then (pair_sub a) x }
{
    match x {
        Some(b) => difference(a, b),
        None => None,
    }
}

/// The quotient of a range that may be undefined.
#[inline(always)]
pub fn over_of(x: Option<Range>, divisor: Range) -> Option<Range>
    ensures { result ≡ option_and_then (λ a. pair_div a divisor) x }
{
    match x {
        Some(a) => over(a, divisor),
        None => None,
    }
}

/// The product of a range and a slope: that of no slope is 0.
#[inline(always)]
pub fn scaled(range: Range, slope: Range) -> Option<Range>
    ensures { result ≡ pair_mul range slope }
{
    if low(slope) == 0 && high(slope) == 0 {
        Some(slope)
    } else {
        times(range, slope)
    }
}
