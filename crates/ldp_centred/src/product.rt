ghost use Rattle.std.specs.Prelude.{◌≡◌, IfSome};
ghost use Rattle.ldp_num.specs.Number.{IsNumber};
ghost use Rattle.ldp_num.specs.Ranges.{pair_add, pair_mul};
ghost use Rattle.ldp_num.specs.Slopes.{of_pair, of_places, outward, slope_mul, error_mul};
ghost use Rattle.ldp_num.specs.Slopes.{known_mul};
ghost use Rattle.ldp_centred.specs.Kept.{IsError};

use crate::error::{greatest_size, more, size, total, weighed};
use crate::known::{Known, joined};
use crate::number::{outward_of, scaled, sum_of};
use crate::slopes::{Slopes, gathered};
use ldp_num::mul;
use ldp_range::{Range, sharp};

// A slope of a product, where the second centre stands as a range.
#[inline(never)]
fn slope_of_product(range: Range, centre: Range, s: Range, t: Range) -> Option<Range>
    ensures { result ≡ of_pair pair_add (outward (pair_mul range t)) (outward (pair_mul centre s)) }
{
    sum_of(outward_of(scaled(range, t)), outward_of(scaled(centre, s)))
}

// The slopes of a product, where the second centre stands as a range.
#[inline(always)]
fn slopes_by(range: Range, centre: Range, s: Slopes, t: Slopes) -> Option<Slopes>
    ensures { result ≡ of_places (λ s t.
        of_pair pair_add (outward (pair_mul range t)) (outward (pair_mul centre s))) s t }
{
    gathered(
        slope_of_product(range, centre, s.latitude, t.latitude),
        slope_of_product(range, centre, s.longitude, t.longitude),
        slope_of_product(range, centre, s.azimuth, t.azimuth),
        slope_of_product(range, centre, s.scale, t.scale),
    )
}

// The slopes of a product, by the range of the first and the centre of the second.
#[inline(always)]
fn slopes_of_product(range: Range, centre: i128, s: Slopes, t: Slopes) -> Option<Slopes>
    requires { IsNumber centre }
    ensures { result ≡ of_places (slope_mul range centre) s t }
{
    slopes_by(range, sharp(centre), s, t)
}

// The error of a product, from both errors.
#[inline(always)]
fn error_of_product(range: Range, centre: i128, e: i128, f: i128) -> Option<i128>
    requires centre { IsNumber centre }
    requires first { IsError e }
    requires second { IsError f }
    ensures value { result ≡ error_mul range centre e f }
    ensures error { IfSome result IsError }
{
    more(
        total(weighed(greatest_size(range), f), weighed(size(centre), e)),
        3,
    )
}

/// What is known of a product, by the range of the first.
#[inline(always)]
pub fn known_product(range: Range, k: Known, l: Known) -> Option<Known>
    ensures { result ≡ known_mul range k l }
{
    joined(
        mul(k.centre, l.centre),
        error_of_product(range, l.centre, k.error, l.error),
        slopes_of_product(range, l.centre, k.slopes, l.slopes),
    )
}

/// What is known of a product of two items, by the range of the first.
#[inline(always)]
pub fn both_product(range: Range, k: Option<Known>, l: Option<Known>) -> Option<Known>
    ensures { result ≡ of_pair (known_mul range) k l }
{
    match (k, l) {
        (Some(k), Some(l)) => known_product(range, k, l),
        _ => None,
    }
}
