ghost use Rattle.std.specs.Prelude.{◌≡◌, IfOk};
ghost use Rattle.ldp_quantity.specs.Quantity.{scale_of, IsScale};

use crate::between::read_between;
use crate::unfit::Unfit;

/// A half.
pub const LEAST_SCALE: i128 = 500_000_000_000_000;

/// Two.
pub const GREATEST_SCALE: i128 = 2_000_000_000_000_000;

/// A scale factor from a text, in units of 10^-15.
pub fn read_scale(text: &[u8]) -> Result<i128, Unfit>
    ensures value { result ≡ scale_of text.now }
    ensures range { IfOk result IsScale }
{
    read_between(text, 15, LEAST_SCALE, GREATEST_SCALE)
}
