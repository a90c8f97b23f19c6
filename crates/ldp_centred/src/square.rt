ghost use Rattle.std.specs.Prelude.{◌≡◌, pos, option_and_then, IfSome};
ghost use Rattle.ldp_num.specs.Plain.{plain_mul};
ghost use Rattle.ldp_num.specs.Ranges.{pair_mul, pair_high_abs};
ghost use Rattle.ldp_num.specs.Slopes.{of_each, outward, plus, known_squared, known_sq};
ghost use Rattle.ldp_centred.specs.Kept.{IsError};

use crate::error::{greatest_size, more, weighed};
use crate::known::{Known, joined};
use crate::number::{outward_of, scaled};
use crate::slopes::{Slopes, gathered};
use ldp_num::sq;
use ldp_range::pairs::sum;
use ldp_range::{Range, sharp};

// The slopes of a square, by the sum of the range and the centre.
#[inline(never)]
fn slopes_of_square(both: Range, s: Slopes) -> Option<Slopes>
    ensures { result ≡ of_each (λ s. outward (pair_mul both s)) s }
{
    gathered(
        outward_of(scaled(both, s.latitude)),
        outward_of(scaled(both, s.longitude)),
        outward_of(scaled(both, s.azimuth)),
        outward_of(scaled(both, s.scale)),
    )
}

// The error of a square.
#[inline(always)]
fn error_of_square(both: Range, error: i128) -> Option<i128>
    requires { IsError error }
    ensures value { result ≡ plus (plain_mul (pair_high_abs both) error) (pos 2) }
    ensures error { IfSome result IsError }
{
    more(weighed(greatest_size(both), error), 2)
}

// What is known of a square, by the sum of the range and the centre.
#[inline(always)]
fn squared(k: Known, both: Range) -> Option<Known>
    ensures { result ≡ known_squared k both }
{
    joined(
        sq(k.centre),
        error_of_square(both, k.error),
        slopes_of_square(both, k.slopes),
    )
}

// The same, where that sum may be undefined.
#[inline(always)]
fn squared_by(k: Known, both: Option<Range>) -> Option<Known>
    ensures { result ≡ option_and_then (known_squared k) both }
{
    match both {
        Some(both) => squared(k, both),
        None => None,
    }
}

/// What is known of a square, by the operand's range.
#[inline(always)]
pub fn known_square(range: Range, k: Known) -> Option<Known>
    ensures { result ≡ known_sq range k }
{
    squared_by(k, sum(range, sharp(k.centre)))
}

/// What is known of the square of an item, by its range.
#[inline(always)]
pub fn one_square(range: Range, k: Option<Known>) -> Option<Known>
    ensures { result ≡ option_and_then (known_sq range) k }
{
    match k {
        Some(k) => known_square(range, k),
        None => None,
    }
}
