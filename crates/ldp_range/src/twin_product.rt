ghost use Rattle.std.specs.Prelude.{◌≡◌, if◌then◌else◌, int_le, pos};
ghost use Rattle.ldp_num.specs.Ranges.{pair_mul};
ghost use Rattle.ldp_num.specs.Twins.{by_signs, lesser_of, greater_of, twin_raised, twin_lowered};
ghost use Rattle.ldp_num.specs.Twins.{twin_corners, twin_mul};

use crate::pairs::{greater_range, is_at_most_zero, is_natural, lesser_range, times};
use crate::range::Range;
use crate::twin::{Twin, joined};

/// The product of two twins. The signs of the ranges say which of their products hold the ends.
#[inline(always)]
pub fn product(a: Twin, b: Twin) -> Option<Twin>
    ensures { result ≡ twin_mul a b }
{
    if is_natural(b.low()) {
        raised(a, b)
    } else if is_at_most_zero(b.high()) {
        lowered(a, b)
    } else if is_natural(a.low()) {
        raised(b, a)
    } else if is_at_most_zero(a.high()) {
        lowered(b, a)
    } else {
        corners(a, b)
    }
}

// The same where the ranges of b are not below 0.
#[inline(always)]
fn raised(a: Twin, b: Twin) -> Option<Twin>
    ensures { result ≡ twin_raised a b }
{
    joined(
        least(a.low(), b.low(), b.high()),
        greatest(a.high(), b.high(), b.low()),
    )
}

// The same where the ranges of b are not above 0.
#[inline(always)]
fn lowered(a: Twin, b: Twin) -> Option<Twin>
    ensures { result ≡ twin_lowered a b }
{
    joined(
        least(a.high(), b.low(), b.high()),
        greatest(a.low(), b.high(), b.low()),
    )
}

// The same where neither sign is known.
#[inline(never)]
fn corners(a: Twin, b: Twin) -> Option<Twin>
    ensures { result ≡ twin_corners a b }
{
    let low_low = times(a.low(), b.low());
    let low_high = times(a.low(), b.high());
    let high_low = times(a.high(), b.low());
    let high_high = times(a.high(), b.high());
    joined(
        least_of_four(&low_low, &low_high, &high_low, &high_high),
        greatest_of_four(&low_low, &low_high, &high_low, &high_high),
    )
}

#[inline(always)]
fn least_of_four(
    p: &Option<Range>,
    q: &Option<Range>,
    r: &Option<Range>,
    s: &Option<Range>,
) -> Option<Range>
    ensures { result ≡ lesser_of (lesser_of p.now q.now) (lesser_of r.now s.now) }
{
    lesser_range(lesser_range(*p, *q), lesser_range(*r, *s))
}

#[inline(always)]
fn greatest_of_four(
    p: &Option<Range>,
    q: &Option<Range>,
    r: &Option<Range>,
    s: &Option<Range>,
) -> Option<Range>
    ensures { result ≡ greater_of (greater_of p.now q.now) (greater_of r.now s.now) }
{
    greater_range(greater_range(*p, *q), greater_range(*r, *s))
}

// Where the least of the products of a number of x with one of each other range lies.
#[inline(always)]
fn least(x: Range, first: Range, second: Range) -> Option<Range>
    ensures { result ≡ by_signs lesser_of x (pair_mul x first) (pair_mul x second) }
{
    if is_natural(x) {
        times(x, first)
    } else if is_at_most_zero(x) {
        times(x, second)
    } else {
        lesser_range(times(x, first), times(x, second))
    }
}

#[inline(always)]
fn greatest(x: Range, first: Range, second: Range) -> Option<Range>
    ensures { result ≡ by_signs greater_of x (pair_mul x first) (pair_mul x second) }
{
    if is_natural(x) {
        times(x, first)
    } else if is_at_most_zero(x) {
        times(x, second)
    } else {
        greater_range(times(x, first), times(x, second))
    }
}
