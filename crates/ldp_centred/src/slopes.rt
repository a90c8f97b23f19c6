ghost use Rattle.std.specs.Prelude.{◌≡◌};
ghost use Rattle.std.specs.Bool.{Decides};
ghost use Rattle.ldp_num.specs.Ranges.{pair_add, pair_sub};
ghost use Rattle.ldp_num.specs.Slopes.{flat, of_places};
ghost use Rattle.ldp_centred.specs.Kept.{four};

use ldp_range::pairs::{difference, sum};
use ldp_range::{Range, sharp};
use std::marker::Model;

/// For each design input the range of a slope, in units of 10^-15.
#[derive(Clone, Copy, Debug, PartialEq, Eq)]
pub struct Slopes {
    pub latitude: Range,
    pub longitude: Range,
    pub azimuth: Range,
    pub scale: Range,
}

impl Model for Slopes {
    ghost use Rattle.std.specs.Prelude.{ℤ, List, [], ◌∷◌};
    ghost use Rattle.ldp_centred.specs.Kept.{first, rest};

    ghost Value = { List (ℤ × ℤ) };

    ghost view = { λ s. s.latitude ∷ s.longitude ∷ s.azimuth ∷ s.scale ∷ [] };

    ghost inverse = { λ slopes. record {
      latitude = first slopes;
      longitude = first (rest slopes);
      azimuth = first (rest (rest slopes));
      scale = first (rest (rest (rest slopes)));
    } };
}

/// The slopes of a value that depends on no design input.
#[inline(always)]
pub fn none() -> Slopes
    ensures { result ≡ flat }
{
    Slopes {
        latitude: sharp(0),
        longitude: sharp(0),
        azimuth: sharp(0),
        scale: sharp(0),
    }
}

/// The slopes of these ranges, where all are defined.
#[inline(always)]
pub fn gathered(
    latitude: Option<Range>,
    longitude: Option<Range>,
    azimuth: Option<Range>,
    scale: Option<Range>,
) -> Option<Slopes>
    ensures { result ≡ four latitude longitude azimuth scale }
{
    match (latitude, longitude, azimuth, scale) {
        (Some(latitude), Some(longitude), Some(azimuth), Some(scale)) => Some(Slopes {
            latitude,
            longitude,
            azimuth,
            scale,
        }),
        _ => None,
    }
}

/// The sums of two slopes for each input.
#[inline(always)]
pub fn sums(s: Slopes, t: Slopes) -> Option<Slopes>
    ensures { result ≡ of_places pair_add s t }
{
    gathered(
        sum(s.latitude, t.latitude),
        sum(s.longitude, t.longitude),
        sum(s.azimuth, t.azimuth),
        sum(s.scale, t.scale),
    )
}

/// The differences of two slopes for each input.
#[inline(always)]
pub fn differences(s: Slopes, t: Slopes) -> Option<Slopes>
    ensures { result ≡ of_places pair_sub s t }
{
    gathered(
        difference(s.latitude, t.latitude),
        difference(s.longitude, t.longitude),
        difference(s.azimuth, t.azimuth),
        difference(s.scale, t.scale),
    )
}

// Whether both are the same range.
#[inline(always)]
fn same_range(a: Range, b: Range) -> bool
    ensures { Decides result (a ≡ b) }
{
    a == b
}

/// Whether both are the same slopes.
#[inline(always)]
pub fn same_slopes(s: Slopes, t: Slopes) -> bool
    ensures { Decides result (s ≡ t) }
{
    same_range(s.latitude, t.latitude)
        && same_range(s.longitude, t.longitude)
        && same_range(s.azimuth, t.azimuth)
        && same_range(s.scale, t.scale)
}
