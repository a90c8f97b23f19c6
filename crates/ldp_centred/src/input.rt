ghost use Rattle.std.specs.Prelude.{◌≡◌, ◌<◌, ◌≤ℤ◌, ◌+ℤ◌, pos, set, Some};
ghost use Rattle.ldp_num.specs.Number.{IsNumber, one};
ghost use Rattle.ldp_num.specs.Slopes.{flat};
ghost use Rattle.ldp_range.specs.Range.{LiesIn};
ghost use Rattle.ldp_centred.specs.Lowest.{middle, offset_range, item_input};

use crate::known::Known;
use crate::number::{high, low, spanned};
use crate::slopes::Slopes;
use ldp_num::ONE;
use ldp_range::{Range, sharp};

/// The middle of a range, rounded down.
#[inline(always)]
pub fn middle_of(range: Range) -> i128
    ensures value { result ≡ middle range }
    ensures within { LiesIn result range }
    ensures number { IsNumber result }
    ensures from_low { (result +ℤ result) ≤ℤ (range.0 +ℤ range.1) }
    ensures to_high { (range.0 +ℤ range.1) ≤ℤ (result +ℤ result +ℤ pos 1) }
{
    (low(range) + high(range)).div_euclid(2)
}

/// How far the numbers of a range are from its middle.
#[inline(always)]
pub fn offsets_of(input: Range) -> Range
    ensures { result ≡ offset_range input }
{
    let centre = middle_of(input);
    spanned(low(input) - centre, high(input) - centre)
}

// The slopes of a design input: by itself one, and by each other 0.
#[inline(always)]
fn own_slopes(place: u32) -> Slopes
    requires { place < 4 }
    ensures { result ≡ set flat place (pos one, pos one) }
{
    let mut latitude = sharp(0);
    let mut longitude = sharp(0);
    let mut azimuth = sharp(0);
    let mut scale = sharp(0);
    match place {
        0 => latitude = sharp(ONE),
        1 => longitude = sharp(ONE),
        2 => azimuth = sharp(ONE),
        _ => scale = sharp(ONE),
    }
    Slopes {
        latitude,
        longitude,
        azimuth,
        scale,
    }
}

/// What is known of the design input at a place, over its range.
#[inline(always)]
pub fn known_input(range: Range, place: u32) -> Known
    requires { place < 4 }
    ensures value { Some result ≡ (item_input range place).known }
    ensures within { LiesIn result.centre range }
{
    Known {
        centre: middle_of(range),
        error: 0,
        slopes: own_slopes(place),
    }
}
