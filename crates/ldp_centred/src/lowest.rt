ghost use Rattle.std.specs.Prelude.{◌≡◌, ◌≤ℤ◌, pos, neg_ℤ, [], ◌∷◌, Some, option_and_then};
ghost use Rattle.ldp_num.specs.Number.{IsNumber};
ghost use Rattle.ldp_num.specs.Ranges.{pair_add};
ghost use Rattle.ldp_num.specs.Slopes.{of_pair};
ghost use Rattle.ldp_centred.specs.Kept.{IsError};
ghost use Rattle.ldp_centred.specs.Lowest.{lean, form_from, form, common, least_abs};

use crate::input::offsets_of;
use crate::known::Known;
use crate::number::{greater, high, lesser, low, opposite, outward_of, spanned, sum_of};
use crate::slopes::Slopes;
use ldp_range::pairs::times;
use ldp_range::{Range, sharp};

// How far a slope takes a value from its centre over the range of an input.
#[inline(always)]
fn leaned(slope: Range, input: Range) -> Option<Range>
    ensures { result ≡ lean slope input }
{
    outward_of(times(slope, offsets_of(input)))
}

// A range, and what each slope adds to it over the ranges of the design inputs.
#[inline(always)]
fn form_by(
    start: Option<Range>,
    slopes: Slopes,
    latitude: Range,
    longitude: Range,
    azimuth: Range,
    scale: Range,
) -> Option<Range>
    ensures { result ≡ form_from start slopes (latitude ∷ longitude ∷ azimuth ∷ scale ∷ []) }
{
    let by_latitude = sum_of(start, leaned(slopes.latitude, latitude));
    let by_longitude = sum_of(by_latitude, leaned(slopes.longitude, longitude));
    let by_azimuth = sum_of(by_longitude, leaned(slopes.azimuth, azimuth));
    sum_of(by_azimuth, leaned(slopes.scale, scale))
}

// An error both ways.
#[inline(always)]
fn both_ways(error: i128) -> Range
    requires { IsError error }
    ensures { result ≡ (neg_ℤ error, error) }
{
    spanned(opposite(error), error)
}

// The centred form of what is known.
#[inline(always)]
fn known_form(
    k: Known,
    latitude: Range,
    longitude: Range,
    azimuth: Range,
    scale: Range,
) -> Option<Range>
    ensures { result ≡ form k (latitude ∷ longitude ∷ azimuth ∷ scale ∷ []) }
{
    let start = Some(sharp(k.centre));
    sum_of(
        form_by(start, k.slopes, latitude, longitude, azimuth, scale),
        Some(both_ways(k.error)),
    )
}

/// The centred form of an item, where more than its range is known.
#[inline(always)]
pub fn one_form(
    k: Option<Known>,
    latitude: Range,
    longitude: Range,
    azimuth: Range,
    scale: Range,
) -> Option<Range>
    ensures { result ≡ option_and_then
        (λ k. form k (latitude ∷ longitude ∷ azimuth ∷ scale ∷ [])) k }
{
    match k {
        Some(k) => known_form(k, latitude, longitude, azimuth, scale),
        None => None,
    }
}

// The least absolute value of the numbers that are at least the first and at most the second.
#[inline(always)]
fn least_between(low: i128, high: i128) -> i128
    requires low { IsNumber low }
    requires high { IsNumber high }
    ensures value { result ≡ least_abs (low, high) }
    ensures error { IsError result }
{
    greater(0, greater(low, opposite(high)))
}

/// The least absolute value in the common part of a range and a form.
#[inline(always)]
pub fn lowest_in(range: Range, form: Option<Range>) -> i128
    ensures value { result ≡ least_abs (common range form) }
    ensures error { IsError result }
{
    match form {
        Some(form) => least_between(
            greater(low(range), low(form)),
            lesser(high(range), high(form)),
        ),
        None => least_between(low(range), high(range)),
    }
}
