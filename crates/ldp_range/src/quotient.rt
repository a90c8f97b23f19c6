ghost use Rattle.std.specs.Prelude.{◌≡◌, ◌≤ℤ◌, pos};
ghost use Rattle.ldp_num.specs.Ranges.{IsRange, pair_div};

use crate::choice::by_sign;
use crate::range::{Range, paired};
use ldp_num::div;

/// The quotient of [lo, hi] by [low, high], for a low end of the divisor above 0.
#[inline(always)]
pub fn quotient(lo: i128, hi: i128, low: i128, high: i128) -> Option<Range>
    requires left { IsRange lo hi }
    requires right { IsRange low high }
    ensures { result ≡ pair_div (lo, hi) (low, high) }
{
    if low <= 0 {
        None
    } else {
        divided(lo, hi, low, high)
    }
}

// The same by a range above 0.
#[inline(always)]
fn divided(lo: i128, hi: i128, low: i128, high: i128) -> Option<Range>
    requires left { IsRange lo hi }
    requires right { IsRange low high }
    requires sign { pos 1 ≤ℤ low }
    ensures { result ≡ pair_div (lo, hi) (low, high) }
{
    paired(
        div(lo, by_sign(lo, high, low)),
        div(hi, by_sign(hi, low, high)),
    )
}
