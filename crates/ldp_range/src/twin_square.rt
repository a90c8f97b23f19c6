ghost use Rattle.std.specs.Prelude.{◌≡◌, if◌then◌else◌, int_le, pos};
ghost use Rattle.ldp_num.specs.Twins.{nearest_squares, twin_sq};

use crate::choice::{greater, greatest_of, lesser};
use crate::pairs::{greater_range, is_at_most_zero, is_natural, squared};
use crate::range::{Range, paired};
use crate::twin::{Twin, joined};
use ldp_num::sq;

/// The square of a twin.
#[inline(always)]
pub fn square(a: Twin) -> Option<Twin>
    ensures { result ≡ twin_sq a }
{
    if is_natural(a.low()) {
        joined(squared(a.low()), squared(a.high()))
    } else if is_at_most_zero(a.high()) {
        joined(squared(a.high()), squared(a.low()))
    } else {
        joined(
            nearest(a),
            greater_range(squared(a.low()), squared(a.high())),
        )
    }
}

// Where the least square of a number of one of the ranges lies, where they may hold 0.
#[inline(always)]
fn nearest(a: Twin) -> Option<Range>
    ensures { result ≡ nearest_squares a }
{
    let above = greater(a.low().hi(), 0);
    let below = lesser(a.high().lo(), 0);
    paired(Some(0), greatest_of(sq(above), sq(below)))
}
