ghost use Rattle.std.specs.Prelude.{◌≡◌, option_and_then, IfSome};
ghost use Rattle.ldp_num.specs.Number.{IsNumber};
ghost use Rattle.ldp_num.specs.Slopes.{of_pair, of_places, out, slope_div, error_div};
ghost use Rattle.ldp_num.specs.Slopes.{known_divided, known_div};
ghost use Rattle.ldp_centred.specs.Kept.{IsError};

use crate::error::{added, greatest_size, more, share, weighed};
use crate::known::{Known, joined};
use crate::number::{further, less, low, outward_of, over_of, scaled};
use crate::slopes::{Slopes, gathered};
use ldp_num::div;
use ldp_range::{Range, sharp};

// A slope of a quotient by a divisor in this range, where near holds the quotient of the centres.
#[inline(never)]
fn slope_of_quotient(range: Range, near: Range, s: Range, t: Range) -> Option<Range>
    ensures { result ≡ slope_div range near s t }
{
    outward_of(over_of(less(s, outward_of(scaled(near, t))), range))
}

// The slopes of a quotient, one for each design input.
#[inline(always)]
fn slopes_of_quotient(range: Range, near: Range, s: Slopes, t: Slopes) -> Option<Slopes>
    ensures { result ≡ of_places (slope_div range near) s t }
{
    gathered(
        slope_of_quotient(range, near, s.latitude, t.latitude),
        slope_of_quotient(range, near, s.longitude, t.longitude),
        slope_of_quotient(range, near, s.azimuth, t.azimuth),
        slope_of_quotient(range, near, s.scale, t.scale),
    )
}

// The error of a quotient, from both errors.
#[inline(always)]
fn error_of_quotient(range: Range, near: Range, e: i128, f: i128) -> Option<i128>
    requires first { IsError e }
    requires second { IsError f }
    ensures value { result ≡ error_div range near e f }
    ensures error { IfSome result IsError }
{
    more(
        share(
            more(added(e, weighed(greatest_size(near), f)), 1),
            low(range),
        ),
        2,
    )
}

// What is known of a quotient, where that of the centres is known.
#[inline(always)]
fn divided(range: Range, k: Known, l: Known, centre: i128, near: Range) -> Option<Known>
    requires { IsNumber centre }
    ensures { result ≡ known_divided range k l centre near }
{
    joined(
        Some(centre),
        error_of_quotient(range, near, k.error, l.error),
        slopes_of_quotient(range, near, k.slopes, l.slopes),
    )
}

// The same, where the pair near that quotient may be undefined.
#[inline(always)]
fn divided_near(
    range: Range,
    k: Known,
    l: Known,
    centre: i128,
    near: Option<Range>,
) -> Option<Known>
    requires { IsNumber centre }
    ensures { result ≡ option_and_then (known_divided range k l centre) near }
{
    match near {
        Some(near) => divided(range, k, l, centre, near),
        None => None,
    }
}

// Where the quotient of the centres lies, which is this when rounded down.
#[inline(always)]
fn near_quotient(centre: i128) -> Option<Range>
    requires { IsNumber centre }
    ensures { result ≡ out (centre, centre) }
{
    further(sharp(centre))
}

// The same, from the quotient of the centres.
#[inline(always)]
fn divided_at(range: Range, k: Known, l: Known, centre: Option<i128>) -> Option<Known>
    requires { IfSome centre IsNumber }
    ensures { result ≡ option_and_then (λ c.
        option_and_then (known_divided range k l c) (out (c, c))) centre }
{
    match centre {
        Some(centre) => divided_near(range, k, l, centre, near_quotient(centre)),
        None => None,
    }
}

/// What is known of a quotient by a divisor in this range.
#[inline(always)]
pub fn known_quotient(range: Range, k: Known, l: Known) -> Option<Known>
    ensures { result ≡ known_div range k l }
{
    divided_at(range, k, l, div(k.centre, l.centre))
}

/// What is known of a quotient of two items, by the range of the divisor.
#[inline(always)]
pub fn both_quotient(range: Range, k: Option<Known>, l: Option<Known>) -> Option<Known>
    ensures { result ≡ of_pair (known_div range) k l }
{
    match (k, l) {
        (Some(k), Some(l)) => known_quotient(range, k, l),
        _ => None,
    }
}
