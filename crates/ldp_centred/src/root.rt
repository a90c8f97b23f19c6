ghost use Rattle.std.specs.Prelude.{◌≡◌, pos, option_and_then, IfSome};
ghost use Rattle.ldp_num.specs.Number.{IsNumber};
ghost use Rattle.ldp_num.specs.Plain.{plain_div};
ghost use Rattle.ldp_num.specs.Ranges.{pair_div};
ghost use Rattle.ldp_num.specs.Slopes.{of_each, outward, plus, divisor, known_root, known_sqrt};
ghost use Rattle.ldp_centred.specs.Kept.{IsError};

use crate::error::{more, shared};
use crate::known::{Known, joined};
use crate::number::{high, increased, low, outward_of};
use crate::slopes::{Slopes, gathered};
use ldp_num::{add, sqrt};
use ldp_range::Range;
use ldp_range::pairs::{over, paired};

// Where the sum of a root in the range and that of the centre lies.
#[inline(always)]
fn sum_of_roots(range: Range, centre: i128) -> Option<Range>
    requires { IsNumber centre }
    ensures { result ≡ divisor range centre }
{
    paired(
        add(low(range), centre),
        increased(add(high(range), centre), 2),
    )
}

// The slopes of a root, by the sum of the roots.
#[inline(always)]
fn slopes_of_root(both: Range, s: Slopes) -> Option<Slopes>
    ensures { result ≡ of_each (λ s. outward (pair_div s both)) s }
{
    gathered(
        outward_of(over(s.latitude, both)),
        outward_of(over(s.longitude, both)),
        outward_of(over(s.azimuth, both)),
        outward_of(over(s.scale, both)),
    )
}

// The error of a root.
#[inline(always)]
fn error_of_root(both: Range, error: i128) -> Option<i128>
    requires { IsError error }
    ensures value { result ≡ plus (plain_div error both.0) (pos 2) }
    ensures error { IfSome result IsError }
{
    more(shared(error, low(both)), 2)
}

// What is known of a root, where that of the centre is known.
#[inline(always)]
fn rooted(k: Known, centre: i128, both: Range) -> Option<Known>
    requires { IsNumber centre }
    ensures { result ≡ known_root k centre both }
{
    joined(
        Some(centre),
        error_of_root(both, k.error),
        slopes_of_root(both, k.slopes),
    )
}

// The same, where the sum of the roots may be undefined.
#[inline(always)]
fn rooted_by(k: Known, centre: i128, both: Option<Range>) -> Option<Known>
    requires { IsNumber centre }
    ensures { result ≡ option_and_then (known_root k centre) both }
{
    match both {
        Some(both) => rooted(k, centre, both),
        None => None,
    }
}

// The same, from the root of the centre.
#[inline(always)]
fn rooted_at(range: Range, k: Known, centre: Option<i128>) -> Option<Known>
    requires { IfSome centre IsNumber }
    ensures { result ≡ option_and_then (λ c.
        option_and_then (known_root k c) (divisor range c)) centre }
{
    match centre {
        Some(centre) => rooted_by(k, centre, sum_of_roots(range, centre)),
        None => None,
    }
}

/// What is known of a root in this range.
#[inline(always)]
pub fn known_square_root(range: Range, k: Known) -> Option<Known>
    ensures { result ≡ known_sqrt range k }
{
    rooted_at(range, k, sqrt(k.centre))
}

/// What is known of the root of an item, by the root of its range.
#[inline(always)]
pub fn one_square_root(range: Range, k: Option<Known>) -> Option<Known>
    ensures { result ≡ option_and_then (known_sqrt range) k }
{
    match k {
        Some(k) => known_square_root(range, k),
        None => None,
    }
}
