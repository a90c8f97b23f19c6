ghost use Rattle.std.specs.Prelude.{◌≡◌};
ghost use Rattle.ldp_num.specs.Ranges.{IsRange, pair_sq};

use crate::choice::greatest_of;
use crate::range::{Range, paired};
use ldp_num::sq;

/// The square of [lo, hi].
#[inline(always)]
pub fn square(lo: i128, hi: i128) -> Option<Range>
    requires { IsRange lo hi }
    ensures { result ≡ pair_sq (lo, hi) }
{
    if 0 <= lo {
        paired(sq(lo), sq(hi))
    } else if hi <= 0 {
        paired(sq(hi), sq(lo))
    } else {
        paired(Some(0), greatest_of(sq(lo), sq(hi)))
    }
}
