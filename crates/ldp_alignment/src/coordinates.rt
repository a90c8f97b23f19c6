ghost use Rattle.std.specs.Prelude.{◌≡◌, IfOk};
ghost use Rattle.ldp_quantity.specs.Quantity.{IsLongitude, IsLatitude};
ghost use Rattle.ldp_tokens.specs.Seen.{seen};
ghost use Rattle.ldp_alignment.specs.Line.{IsChainage};
ghost use Rattle.ldp_alignment.specs.Coordinates.{fault_at, longitude, latitude, chainage};

use crate::fault::LineFault;
use ldp_quantity::{Unfit, read_between, read_latitude, read_longitude};
use ldp_tokens::Token;

/// The greatest chainage: 1,000,000 metres, in millimetres.
const FURTHEST: i128 = 1_000_000_000;

/// A longitude, in 10^-12 degrees.
#[tactic(auto, unfolding(crate::specs::Coordinates::longitude))]
pub fn longitude(token: &Token<'_>) -> Result<i128, LineFault>
    ensures value { result ≡ longitude (seen token.now) }
    ensures range { IfOk result IsLongitude }
{
    match read_longitude(token.bytes) {
        Ok(x) => Ok(x),
        Err(unfit) => Err(fault_at(token.place, unfit)),
    }
}

/// A latitude, in 10^-12 degrees.
#[tactic(auto, unfolding(crate::specs::Coordinates::latitude))]
pub fn latitude(token: &Token<'_>) -> Result<i128, LineFault>
    ensures value { result ≡ latitude (seen token.now) }
    ensures range { IfOk result IsLatitude }
{
    match read_latitude(token.bytes) {
        Ok(y) => Ok(y),
        Err(unfit) => Err(fault_at(token.place, unfit)),
    }
}

/// A chainage, in millimetres.
#[tactic(auto, unfolding(crate::specs::Coordinates::chainage))]
pub fn chainage(token: &Token<'_>) -> Result<i64, LineFault>
    ensures value { result ≡ chainage (seen token.now) }
    ensures range { IfOk result IsChainage }
{
    match read_between(token.bytes, 3, 0, FURTHEST) {
        Ok(along) => Ok(along as i64),
        Err(unfit) => Err(fault_at(token.place, unfit)),
    }
}

/// The fault of a number at a place.
fn fault_at(place: usize, unfit: Unfit) -> LineFault
    ensures { result ≡ fault_at place unfit }
{
    match unfit {
        Unfit::NotANumber => LineFault::BadNumber(place),
        Unfit::OutOfRange => LineFault::OutOfRange(place),
    }
}
