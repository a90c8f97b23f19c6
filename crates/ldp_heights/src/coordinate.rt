ghost use Rattle.std.specs.Prelude.{◌≡◌, ◌*◌, ◌≤ℤ◌, ◌≤◌, pos, neg_ℤ, IfOk};
ghost use Rattle.ldp_quantity.specs.Between.{IsBetween};
ghost use Rattle.ldp_quantity.specs.Quantity.{degrees};
ghost use Rattle.ldp_tokens.specs.Seen.{seen};
ghost use Rattle.ldp_heights.specs.Header.{degrees_of, coordinate_of, spacing_of};
ghost use Rattle.ldp_heights.specs.Grid.{IsDegrees, IsCoordinate, IsSpacing, centre_along};
ghost use Rattle.ldp_heights.specs.Grid.{most_places};
ghost use Rattle.ldp_heights.specs.Seen.{coordinate_seen};

use crate::fault::HeightFault;
use ldp_quantity::{Unfit, read_between};
use ldp_tokens::Token;

/// A coordinate in 10^-12 degrees, as it was given: of the grid's corner, or of the centre of a
/// place.
#[derive(Clone, Copy)]
pub enum Coordinate {
    Corner(i128),
    Centre(i128),
}

/// The greatest given coordinate: 360 degrees.
const FULL_TURN: i128 = 360_000_000_000_000;

/// The greatest spacing: 10 degrees.
const WIDEST: i128 = 10_000_000_000_000;

#[tactic(auto, unfolding(crate::specs::Header::degrees_of))]
fn read_degrees(token: &Token<'_>, low: i128, high: i128) -> Result<i128, HeightFault>
    requires low { neg_ℤ (degrees 360) ≤ℤ low }
    requires high { high ≤ℤ degrees 360 }
    ensures value { result ≡ degrees_of low high (seen token.now) }
    ensures range { IfOk result (IsBetween low high) }
{
    match read_between(token.bytes, 12, low, high) {
        Ok(n) => Ok(n),
        Err(Unfit::NotANumber) => Err(HeightFault::BadNumber(token.place)),
        Err(Unfit::OutOfRange) => Err(HeightFault::OutOfRange(token.place)),
    }
}

/// A given coordinate, in 10^-12 degrees.
pub fn read_coordinate(token: &Token<'_>) -> Result<i128, HeightFault>
    ensures value { result ≡ coordinate_of (seen token.now) }
    ensures range { IfOk result IsDegrees }
{
    read_degrees(token, -FULL_TURN, FULL_TURN)
}

/// A spacing, in 10^-12 degrees.
#[tactic(auto, unfolding(crate::specs::Header::spacing_of))]
pub fn read_spacing(token: &Token<'_>) -> Result<u64, HeightFault>
    ensures value { result ≡ spacing_of (seen token.now) }
    ensures range { IfOk result IsSpacing }
{
    let n = read_degrees(token, 1, WIDEST)?;
    Ok(n as u64)
}

/// Along an axis, the centre of the place with so many places before it, from west or south.
pub fn centre_along(given: &Coordinate, spacing: u64, before: u32) -> i128
    requires given { IsCoordinate (coordinate_seen given.now) }
    requires spacing { IsSpacing spacing }
    requires before { before ≤ most_places }
    ensures value { result ≡ centre_along (coordinate_seen given.now) spacing before }
    ensures low { neg_ℤ (degrees 360) ≤ℤ result }
    ensures high { result ≤ℤ degrees 100_000_000 }
{
    match given {
        Coordinate::Corner(edge) => *edge + (steps(2 * before + 1, spacing) / 2) as i128,
        Coordinate::Centre(first) => *first + steps(before, spacing) as i128,
    }
}

fn steps(count: u32, spacing: u64) -> u128
    requires count { count ≤ 8_000_001 }
    requires spacing { IsSpacing spacing }
    ensures value { result ≡ count * spacing }
    ensures high { result ≤ 80_000_010_000_000_000_000 }
{
    u128::from(count) * u128::from(spacing)
}
