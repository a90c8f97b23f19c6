ghost use Rattle.std.specs.Prelude.{◌≡◌, ◌<◌, ◌≤ℤ◌, ℤ, pos, [], ◌∷◌, Some, option_map};
ghost use Rattle.std.specs.Prelude.{option_and_then};
ghost use Rattle.ldp_num.specs.Number.{IsNumber};
ghost use Rattle.ldp_num.specs.Ranges.{pair_sqrt};
ghost use Rattle.ldp_num.specs.Slopes.{item, slope_add, slope_sub, slope_times, slope_over};
ghost use Rattle.ldp_num.specs.Slopes.{slope_sq, slope_sqrt, slope_need, known_sqrt};
ghost use Rattle.ldp_centred.specs.Kept.{IsCentred};
ghost use Rattle.ldp_centred.specs.Lowest.{item_input, lowest};

use crate::input::known_input;
use crate::known::{Known, same_known};
use crate::lowest::{lowest_in, one_form};
use crate::product::both_product;
use crate::quotient::both_quotient;
use crate::root::one_square_root;
use crate::slopes;
use crate::square::one_square;
use crate::sum::{both_difference, both_sum, one_natural};
use ldp_num::Num;
use ldp_range::pairs::{self, over, squared, sum, times};
use ldp_range::{Range, sharp};
use std::marker::Model;

/// A range, and where more is known of the value, how it lies about a centre, carrier 2, in units
/// of 10^-15.
#[derive(Clone, Copy, Debug, PartialEq, Eq)]
pub struct Slope {
    range: Range,
    known: Option<Known>,
}

impl Model for Slope {
    ghost use Rattle.ldp_num.specs.Slopes.{Item};
    ghost use Rattle.ldp_centred.specs.Kept.{IsCentred};

    ghost Value = { Item };

    ghost view = { λ s. record { range = s.range; known = s.known } };

    ghost invariant = { λ s. IsCentred s.range s.known };

    ghost inverse = { λ a. record { range = a.range; known = a.known } };
}

// The item with this range, where that is defined, and with what is known.
#[inline(always)]
fn described(range: Option<Range>, known: Option<Known>) -> Option<Slope>
    requires { (r : ℤ × ℤ) → range ≡ Some r → IsCentred r known }
    ensures { result ≡ option_map (item known) range }
{
    match range {
        Some(range) => Some(Slope { range, known }),
        None => None,
    }
}

// The sum of two items.
#[inline(always)]
fn total(a: Slope, b: Slope) -> Option<Slope>
    ensures { result ≡ slope_add a b }
{
    described(sum(a.range, b.range), both_sum(a.known, b.known))
}

// The difference of two items.
#[inline(always)]
fn difference(a: Slope, b: Slope) -> Option<Slope>
    ensures { result ≡ slope_sub a b }
{
    described(
        pairs::difference(a.range, b.range),
        both_difference(a.known, b.known),
    )
}

// The product of two items.
#[inline(always)]
fn product(a: Slope, b: Slope) -> Option<Slope>
    ensures { result ≡ slope_times a b }
{
    described(
        times(a.range, b.range),
        both_product(a.range, a.known, b.known),
    )
}

// The quotient of two items.
#[inline(always)]
fn quotient(a: Slope, b: Slope) -> Option<Slope>
    ensures { result ≡ slope_over a b }
{
    described(
        over(a.range, b.range),
        both_quotient(b.range, a.known, b.known),
    )
}

// The square of an item.
#[inline(always)]
fn square(a: Slope) -> Option<Slope>
    ensures { result ≡ slope_sq a }
{
    described(squared(a.range), one_square(a.range, a.known))
}

// The root of an item, by that of its range.
#[inline(always)]
fn rooted(range: Range, a: Slope) -> Slope
    requires { pair_sqrt a.range ≡ Some range }
    ensures { result ≡ item (option_and_then (known_sqrt range) a.known) range }
{
    Slope {
        range,
        known: one_square_root(range, a.known),
    }
}

// The root of an item.
#[inline(always)]
fn square_root(a: Slope) -> Option<Slope>
    ensures { result ≡ slope_sqrt a }
{
    match pairs::root(a.range) {
        Some(range) => Some(rooted(range, a)),
        None => None,
    }
}

// The item itself, if it is not below 0.
#[inline(always)]
fn natural(a: Slope) -> Option<Slope>
    ensures { result ≡ slope_need a }
{
    described(pairs::natural(a.range), one_natural(a.known))
}

impl Slope {
    /// The range.
    #[inline(always)]
    pub fn range(self) -> Range
        ensures { result ≡ self.range }
    {
        self.range
    }

    /// What is known besides, if anything is.
    #[inline(always)]
    pub fn known(self) -> Option<Known>
        ensures { result ≡ self.known }
    {
        self.known
    }

    /// The design input at a place, over its range: the latitude is at 0, the longitude at 1, the
    /// azimuth at 2 and the scale at 3.
    #[inline(always)]
    pub fn input(range: Range, place: u32) -> Slope
        requires { place < 4 }
        ensures { result ≡ item_input range place }
    {
        Slope {
            range,
            known: Some(known_input(range, place)),
        }
    }

    /// The least absolute value of the item over a box of design inputs, in units of 10^-15.
    #[inline(always)]
    pub fn lowest_over(
        self,
        latitude: Range,
        longitude: Range,
        azimuth: Range,
        scale: Range,
    ) -> i128
        ensures value { result ≡ lowest self (latitude ∷ longitude ∷ azimuth ∷ scale ∷ []) }
        ensures number { IsNumber result }
        ensures natural { pos 0 ≤ℤ result }
    {
        lowest_in(
            self.range,
            one_form(self.known, latitude, longitude, azimuth, scale),
        )
    }

    /// The same, where the ranges of latitude, longitude, azimuth and scale stand in an array in
    /// this order.
    #[inline(always)]
    pub fn lowest(self, inputs: &[Range; 4]) -> i128
        ensures value { result ≡ lowest self inputs.now }
        ensures number { IsNumber result }
        ensures natural { pos 0 ≤ℤ result }
    {
        self.lowest_over(inputs[0], inputs[1], inputs[2], inputs[3])
    }
}

impl Num for Slope {
    ghost use Rattle.ldp_num.specs.Written.{slope_out};

    const CARRIER: u32 = 2;

    ghost CARRIER = { 2 };

    ghost meaning = { slope_out };

    #[inline(always)]
    fn constant(v: i128) -> Slope {
        Slope {
            range: sharp(v),
            known: Some(Known {
                centre: v,
                error: 0,
                slopes: slopes::none(),
            }),
        }
    }

    #[inline(always)]
    fn add(self, other: Slope) -> Option<Slope> {
        total(self, other)
    }

    #[inline(always)]
    fn sub(self, other: Slope) -> Option<Slope> {
        difference(self, other)
    }

    #[inline(always)]
    fn mul(self, other: Slope) -> Option<Slope> {
        product(self, other)
    }

    #[inline(always)]
    fn div(self, other: Slope) -> Option<Slope> {
        quotient(self, other)
    }

    #[inline(always)]
    fn sq(self) -> Option<Slope> {
        square(self)
    }

    #[inline(always)]
    fn sqrt(self) -> Option<Slope> {
        square_root(self)
    }

    #[inline(always)]
    fn need(self) -> Option<Slope> {
        natural(self)
    }

    #[inline(always)]
    fn same(self, other: Slope) -> bool {
        self.range.same(other.range) && same_known(self.known, other.known)
    }
}
