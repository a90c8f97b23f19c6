ghost use Rattle.std.specs.Prelude.{◌≡◌, ◌<◌, ◌≤◌, ◌*◌, neg_ℤ};
ghost use Rattle.ldp_quantity.specs.Between.{IsBetween};
ghost use Rattle.ldp_quantity.specs.Quantity.{degrees};
ghost use Rattle.ldp_heights.specs.Grid.{IsSpacing};
ghost use Rattle.ldp_alignment.specs.Heights.{weight, reach};
ghost use Rattle.ldp_alignment.specs.Bounded.{IsPosition, most_weight};

use crate::position::Position;
use ldp_heights::Heights;

/// The weight of a place at a point.
pub fn weight(heights: &Heights, at: &Position, row: u32, column: u32) -> u128
    requires at { IsPosition at.now }
    requires row { row < heights.now.rows }
    requires column { column < heights.now.cols }
    ensures value { result ≡ weight heights.now at.now.x at.now.y row column }
    ensures range { result ≤ most_weight }
{
    let (x, y) = heights.centre(row, column);
    let spacing = heights.spacing();
    product(reach(spacing, at.y, y), reach(spacing, at.x, x))
}

/// By how much the spacing is greater than the distance of a centre, or 0.
fn reach(spacing: u64, at: i128, centre: i128) -> u64
    requires spacing { IsSpacing spacing }
    requires at { IsBetween (neg_ℤ (degrees 360)) (degrees 360) at }
    requires centre { IsBetween (neg_ℤ (degrees 360)) (degrees 100_000_000) centre }
    ensures value { result ≡ reach spacing at centre }
    ensures range { result ≤ 10_000_000_000_000 }
{
    u128::from(spacing).saturating_sub(at.abs_diff(centre)) as u64
}

fn product(first: u64, second: u64) -> u128
    requires first { first ≤ 10_000_000_000_000 }
    requires second { second ≤ 10_000_000_000_000 }
    ensures value { result ≡ first * second }
    ensures range { result ≤ most_weight }
{
    u128::from(first) * u128::from(second)
}
