ghost use Rattle.std.specs.Prelude.{◌≡◌, IfOk};
ghost use Rattle.ldp_quantity.specs.Quantity.{longitude_of, IsLongitude};

use crate::between::read_between;
use crate::unfit::Unfit;

/// 180 degrees west.
pub const WESTMOST_LONGITUDE: i128 = -180_000_000_000_000;

/// 360 degrees east: a longitude may be counted eastward for a full turn.
pub const EASTMOST_LONGITUDE: i128 = 360_000_000_000_000;

/// A longitude from a text in degrees, in units of 10^-12 degrees.
pub fn read_longitude(text: &[u8]) -> Result<i128, Unfit>
    ensures value { result ≡ longitude_of text.now }
    ensures range { IfOk result IsLongitude }
{
    read_between(text, 12, WESTMOST_LONGITUDE, EASTMOST_LONGITUDE)
}
