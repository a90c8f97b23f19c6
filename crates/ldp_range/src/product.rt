ghost use Rattle.std.specs.Prelude.{◌≡◌, ◌≤ℤ◌, pos};
ghost use Rattle.ldp_num.specs.Ranges.{IsRange, pair_mul};

use crate::choice::{by_sign, greatest_of, least_of};
use crate::range::{Range, paired};
use ldp_num::mul;

/// The product of two ranges, [lo, hi] and [low, high]. The signs of the ends say which corners are
/// the least and the greatest.
#[inline(always)]
pub fn product(lo: i128, hi: i128, low: i128, high: i128) -> Option<Range>
    requires left { IsRange lo hi }
    requires right { IsRange low high }
    ensures { result ≡ pair_mul (lo, hi) (low, high) }
{
    if 0 <= low {
        scaled(lo, hi, low, high)
    } else if 0 <= lo {
        scaled(low, high, lo, hi)
    } else {
        from_below(lo, hi, low, high)
    }
}

// The same where the second range is not below 0.
#[inline(always)]
fn scaled(lo: i128, hi: i128, low: i128, high: i128) -> Option<Range>
    requires left { IsRange lo hi }
    requires right { IsRange low high }
    requires sign { pos 0 ≤ℤ low }
    ensures { result ≡ pair_mul (lo, hi) (low, high) }
{
    paired(
        mul(lo, by_sign(lo, low, high)),
        mul(hi, by_sign(hi, high, low)),
    )
}

// The same where both ranges begin below 0.
#[inline(never)]
fn from_below(lo: i128, hi: i128, low: i128, high: i128) -> Option<Range>
    requires left { IsRange lo hi }
    requires right { IsRange low high }
    requires left_sign { lo ≤ℤ pos 0 }
    requires right_sign { low ≤ℤ pos 0 }
    ensures { result ≡ pair_mul (lo, hi) (low, high) }
{
    if high <= 0 {
        turned(lo, hi, low, high)
    } else if hi <= 0 {
        turned(low, high, lo, hi)
    } else {
        across(lo, hi, low, high)
    }
}

// The same where the first range begins and the second ends at most at 0.
#[inline(always)]
fn turned(lo: i128, hi: i128, low: i128, high: i128) -> Option<Range>
    requires left { IsRange lo hi }
    requires right { IsRange low high }
    requires left_sign { lo ≤ℤ pos 0 }
    requires right_sign { high ≤ℤ pos 0 }
    ensures { result ≡ pair_mul (lo, hi) (low, high) }
{
    paired(mul(hi, by_sign(hi, low, high)), mul(lo, low))
}

// The same where both ranges hold 0.
#[inline(always)]
fn across(lo: i128, hi: i128, low: i128, high: i128) -> Option<Range>
    requires left { IsRange lo hi }
    requires right { IsRange low high }
    requires left_low { lo ≤ℤ pos 0 }
    requires left_high { pos 0 ≤ℤ hi }
    requires right_low { low ≤ℤ pos 0 }
    requires right_high { pos 0 ≤ℤ high }
    ensures { result ≡ pair_mul (lo, hi) (low, high) }
{
    paired(
        least_of(mul(lo, high), mul(hi, low)),
        greatest_of(mul(lo, low), mul(hi, high)),
    )
}
