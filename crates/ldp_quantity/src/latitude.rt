ghost use Rattle.std.specs.Prelude.{◌≡◌, IfOk};
ghost use Rattle.ldp_quantity.specs.Quantity.{latitude_of, IsLatitude};

use crate::between::read_between;
use crate::unfit::Unfit;

/// 80 degrees south.
pub const LOWEST_LATITUDE: i128 = -80_000_000_000_000;

/// 80 degrees north.
pub const HIGHEST_LATITUDE: i128 = 80_000_000_000_000;

/// A latitude from a text in degrees, in units of 10^-12 degrees.
pub fn read_latitude(text: &[u8]) -> Result<i128, Unfit>
    ensures value { result ≡ latitude_of text.now }
    ensures range { IfOk result IsLatitude }
{
    read_between(text, 12, LOWEST_LATITUDE, HIGHEST_LATITUDE)
}
