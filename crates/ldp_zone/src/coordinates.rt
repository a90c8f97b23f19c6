ghost use Rattle.std.specs.Prelude.{◌≡◌, IfOk, is_some};
ghost use Rattle.ldp_decimal.specs.Reading.{decimal_value};
ghost use Rattle.ldp_quantity.specs.Quantity.{IsLongitude, IsLatitude};
ghost use Rattle.ldp_tokens.specs.Seen.{seen};
ghost use Rattle.ldp_zone.specs.Coordinates.{fault_at, longitude, latitude};

use crate::fault::ZoneFault;
use ldp_decimal::{NumFault, read_decimal};
use ldp_quantity::{Unfit, read_latitude, read_longitude};
use ldp_tokens::Token;

/// A longitude, in 10^-12 degrees.
#[tactic(auto, unfolding(crate::specs::Coordinates::longitude))]
pub fn longitude(token: &Token<'_>) -> Result<i128, ZoneFault>
    ensures value { result ≡ longitude (seen token.now) }
    ensures range { IfOk result IsLongitude }
{
    match read_longitude(token.bytes) {
        Ok(x) => Ok(x),
        Err(unfit) => Err(fault_at(token.place, unfit)),
    }
}

/// A latitude, in 10^-12 degrees.
#[tactic(auto, unfolding(crate::specs::Coordinates::latitude))]
pub fn latitude(token: &Token<'_>) -> Result<i128, ZoneFault>
    ensures value { result ≡ latitude (seen token.now) }
    ensures range { IfOk result IsLatitude }
{
    match read_latitude(token.bytes) {
        Ok(y) => Ok(y),
        Err(unfit) => Err(fault_at(token.place, unfit)),
    }
}

/// The fault of a number at a place.
fn fault_at(place: usize, unfit: Unfit) -> ZoneFault
    ensures { result ≡ fault_at place unfit }
{
    match unfit {
        Unfit::NotANumber => ZoneFault::BadNumber(place),
        Unfit::OutOfRange => ZoneFault::OutOfRange(place),
    }
}

/// Whether a text is a number of any size.
#[tactic(auto, using(crate::proofs::Numbers::is_a_number))]
pub fn is_number(bytes: &[u8]) -> bool
    ensures { result ≡ is_some (decimal_value 0 bytes.now) }
{
    !matches!(read_decimal(bytes, 0, 0), Err(NumFault::NotANumber))
}
