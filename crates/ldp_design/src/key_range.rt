ghost use Rattle.std.specs.Prelude.{◌≡◌, IsTrue};
ghost use Rattle.ldp_design.specs.KeyRanges.{range_of, numbers, latitudes, is_in_range};
ghost use Rattle.ldp_design.specs.KeyRanges.{nearest_latitude, IsInKeyRange};

use crate::family::Kind;
use crate::key::Key;
use ldp_quantity::{
    EASTMOST_LONGITUDE, GREATEST_SCALE, HIGHEST_LATITUDE, LEAST_SCALE, LOWEST_LATITUDE,
    WESTMOST_LONGITUDE,
};

/// The numbers that a key of a family may have, in units of 10^-`places`.
#[derive(Clone, Copy, Debug, PartialEq, Eq)]
pub struct KeyRange {
    pub places: u32,
    pub low: i128,
    pub high: i128,
    /// The least magnitude.
    pub least: u128,
}

/// One degree, in units of 10^-12 degrees.
const DEGREE: u128 = 1_000_000_000_000;

/// The azimuth nearest to west, in units of 10^-12 degrees.
pub const LEAST_AZIMUTH: i128 = -85_000_000_000_000;

/// The azimuth nearest to east, in units of 10^-12 degrees.
pub const GREATEST_AZIMUTH: i128 = 85_000_000_000_000;

/// A false easting or northing of 10^8 metres, in millimetres.
const FARTHEST_ORIGIN: i128 = 100_000_000_000;

/// The numbers that a key may have in a family of a kind; a key without numbers has 0 and 1, which
/// are of no use.
pub fn range_of(key: Key, kind: Kind) -> KeyRange
    ensures { result ≡ range_of key kind }
{
    match key {
        Key::Lat => latitudes(nearest_latitude(kind)),
        Key::Lat2 => latitudes(1),
        Key::Lon => numbers(12, WESTMOST_LONGITUDE, EASTMOST_LONGITUDE),
        Key::Azimuth => numbers(12, LEAST_AZIMUTH, GREATEST_AZIMUTH),
        Key::Scale => numbers(15, LEAST_SCALE, GREATEST_SCALE),
        Key::Origin => latitudes(0),
        Key::Easting | Key::Northing => numbers(3, -FARTHEST_ORIGIN, FARTHEST_ORIGIN),
        Key::Top | Key::Family | Key::Kind => numbers(0, 0, 1),
    }
}

/// How near the first latitude of a kind may be to the equator, in whole degrees.
fn nearest_latitude(kind: Kind) -> u8
    ensures { result ≡ nearest_latitude kind }
{
    match kind {
        Kind::Tm => 0,
        Kind::Lambert | Kind::Hotine | Kind::Lambert2 => 1,
    }
}

fn numbers(places: u32, low: i128, high: i128) -> KeyRange
    ensures { result ≡ numbers places low high }
{
    KeyRange {
        places,
        low,
        high,
        least: 0,
    }
}

/// The latitudes that are at least so many whole degrees from the equator.
fn latitudes(least: u8) -> KeyRange
    ensures { result ≡ latitudes least }
{
    KeyRange {
        places: 12,
        low: LOWEST_LATITUDE,
        high: HIGHEST_LATITUDE,
        least: u128::from(least) * DEGREE,
    }
}

impl KeyRange {
    /// Whether the range has a number.
    pub fn has(&self, n: i128) -> bool
        ensures value { result ≡ is_in_range self.now n }
        ensures inside { IsTrue result → IsInKeyRange self.now n }
    {
        self.low <= n && n <= self.high && self.least <= n.unsigned_abs()
    }
}
