ghost use Rattle.std.specs.Prelude.{◌≡◌, if◌then◌else◌, int_le, pos};
ghost use Rattle.ldp_num.specs.Ranges.{pair_div};
ghost use Rattle.ldp_num.specs.Twins.{both, by_signs, lesser_of, greater_of, twin_div};

use crate::pairs::{greater_range, is_at_most_zero, is_natural, lesser_range, over};
use crate::range::Range;
use crate::twin::{Twin, joined};

/// The quotient of two twins, for low ends of the divisor above 0.
#[inline(always)]
pub fn quotient(a: Twin, b: Twin) -> Option<Twin>
    ensures { result ≡ twin_div a b }
{
    if begins_at_most_at_zero(b.low()) {
        None
    } else {
        divided(a, b)
    }
}

// The same by low ends above 0.
#[inline(always)]
fn divided(a: Twin, b: Twin) -> Option<Twin>
    ensures { result ≡ both (by_signs lesser_of a.0 (pair_div a.0 b.1) (pair_div a.0 b.0))
        (by_signs greater_of a.1 (pair_div a.1 b.0) (pair_div a.1 b.1)) }
{
    joined(
        least(a.low(), b.high(), b.low()),
        greatest(a.high(), b.low(), b.high()),
    )
}

// Whether the low end of the range is at most 0.
#[inline(always)]
fn begins_at_most_at_zero(a: Range) -> bool
    ensures { result ≡ int_le a.0 (pos 0) }
{
    a.lo() <= 0
}

// Where the least of the quotients of a number of x by one of each other range lies.
#[inline(always)]
fn least(x: Range, first: Range, second: Range) -> Option<Range>
    ensures { result ≡ by_signs lesser_of x (pair_div x first) (pair_div x second) }
{
    if is_natural(x) {
        over(x, first)
    } else if is_at_most_zero(x) {
        over(x, second)
    } else {
        lesser_range(over(x, first), over(x, second))
    }
}

#[inline(always)]
fn greatest(x: Range, first: Range, second: Range) -> Option<Range>
    ensures { result ≡ by_signs greater_of x (pair_div x first) (pair_div x second) }
{
    if is_natural(x) {
        over(x, first)
    } else if is_at_most_zero(x) {
        over(x, second)
    } else {
        greater_range(over(x, first), over(x, second))
    }
}
