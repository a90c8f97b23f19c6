ghost use Rattle.std.specs.Prelude.{◌≡◌, ◌≤◌, neg_ℤ, ◌-ℤ◌};
ghost use Rattle.ldp_quantity.specs.Between.{IsBetween};
ghost use Rattle.ldp_quantity.specs.Quantity.{degrees, IsLongitude, IsLatitude};
ghost use Rattle.ldp_heights.specs.Grid.{IsHeight, IsSpacing};
ghost use Rattle.ldp_alignment.specs.Heights.{height_at, four_shares, places_before, west, south};
ghost use Rattle.ldp_alignment.specs.Heights.{presence, height_or_zero};
ghost use Rattle.ldp_alignment.specs.Bounded.{IsPosition, AreBounded};

use crate::position::Position;
use crate::share::two_shares;
use crate::sums::{Sums, mean, sum};
use ldp_heights::Heights;

/// The height in millimetres at a longitude x and a latitude y in 10^-12 degrees, between the
/// centres of the grid's places by bilinear interpolation and rounded down; None where a place that
/// has a weight there has no height or is off the grid. Takes no memory.
#[tactic(auto, using(crate::proofs::Fours::height_of_four))]
pub fn height_at(heights: &Heights, x: i128, y: i128) -> Option<i32>
    requires x { IsLongitude x }
    requires y { IsLatitude y }
    ensures value { result ≡ height_at heights.now x y }
    ensures range { IsHeight result }
{
    mean(heights.spacing(), &four_shares(heights, &Position { x, y }))
}

/// The sums of the four places about a point.
fn four_shares(heights: &Heights, at: &Position) -> Sums
    requires at { IsPosition at.now }
    ensures weights { let grid = heights.now in result.weights
        ≡ four_shares presence grid at.now.x at.now.y
        (places_before grid.spacing (at.now.y -ℤ south grid))
        (places_before grid.spacing (at.now.x -ℤ west grid)) }
    ensures heights { let grid = heights.now in result.heights
        ≡ four_shares height_or_zero grid at.now.x at.now.y
        (places_before grid.spacing (at.now.y -ℤ south grid))
        (places_before grid.spacing (at.now.x -ℤ west grid)) }
    ensures bounded { AreBounded 4 result }
{
    let (west, south) = heights.centre(heights.rows() - 1, 0);
    let column = places_before(heights.spacing(), at.x - west);
    let row = places_before(heights.spacing(), at.y - south);
    let first = two_shares(heights, at, row, column);
    let second = two_shares(heights, at, row + 1, column);
    sum(&first, &second)
}

/// The number of whole spacings in a distance; none in one that is below 0.
fn places_before(spacing: u64, distance: i128) -> u64
    requires spacing { IsSpacing spacing }
    requires distance { IsBetween (neg_ℤ (degrees 200_000_000)) (degrees 1_000) distance }
    ensures value { result ≡ places_before spacing distance }
    ensures range { result ≤ 1_000_000_000_000_000 }
{
    if distance < 0 {
        return 0;
    }
    (distance as u128 / u128::from(spacing)) as u64
}
