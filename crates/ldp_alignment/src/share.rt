ghost use Rattle.std.specs.Prelude.{◌≡◌, ◌<◌, ◌≤◌, ◌^◌};
ghost use Rattle.ldp_alignment.specs.Heights.{place_share, share, two_shares, within};
ghost use Rattle.ldp_alignment.specs.Heights.{presence, height_or_zero};
ghost use Rattle.ldp_alignment.specs.Bounded.{IsPosition, AreBounded};

use crate::position::Position;
use crate::sums::{Sums, nothing, sum, weighted};
use crate::weight::weight;
use ldp_heights::Heights;

/// The weight of a place and of its height; a missing height has none.
fn place_share(heights: &Heights, at: &Position, row: u32, column: u32) -> Sums
    requires at { IsPosition at.now }
    requires row { row < heights.now.rows }
    requires column { column < heights.now.cols }
    ensures weights { result.weights
        ≡ place_share presence heights.now at.now.x at.now.y row column }
    ensures heights { result.heights
        ≡ place_share height_or_zero heights.now at.now.x at.now.y row column }
    ensures bounded { AreBounded 1 result }
{
    match heights.mm(row, column) {
        None => nothing(),
        Some(mm) => weighted(weight(heights, at, row, column), mm),
    }
}

/// The share of a column in a row, both counted from the south-west; a column off the grid has
/// none.
fn share(heights: &Heights, at: &Position, south: u32, column: u64) -> Sums
    requires at { IsPosition at.now }
    requires south { south < heights.now.rows }
    ensures weights { result.weights
        ≡ within (share presence heights.now at.now.x at.now.y south) heights.now.cols column }
    ensures heights { result.heights
        ≡ within (share height_or_zero heights.now at.now.x at.now.y south) heights.now.cols
        column }
    ensures bounded { AreBounded 1 result }
{
    if column < u64::from(heights.cols()) {
        place_share(heights, at, heights.rows() - 1 - south, column as u32)
    } else {
        nothing()
    }
}

/// The shares of a column and of the next in a row; a row off the grid has none.
pub fn two_shares(heights: &Heights, at: &Position, south: u64, column: u64) -> Sums
    requires at { IsPosition at.now }
    requires column { column < 2 ^ 62 }
    ensures weights { result.weights
        ≡ within (two_shares presence heights.now at.now.x at.now.y column) heights.now.rows
        south }
    ensures heights { result.heights
        ≡ within (two_shares height_or_zero heights.now at.now.x at.now.y column)
        heights.now.rows south }
    ensures bounded { AreBounded 2 result }
{
    if south < u64::from(heights.rows()) {
        pair(heights, at, south as u32, column)
    } else {
        nothing()
    }
}

/// The shares of a column and of the next in a row.
fn pair(heights: &Heights, at: &Position, south: u32, column: u64) -> Sums
    requires at { IsPosition at.now }
    requires south { south < heights.now.rows }
    requires column { column < 2 ^ 62 }
    ensures weights { result.weights
        ≡ two_shares presence heights.now at.now.x at.now.y column south }
    ensures heights { result.heights
        ≡ two_shares height_or_zero heights.now at.now.x at.now.y column south }
    ensures bounded { AreBounded 2 result }
{
    let first = share(heights, at, south, column);
    let second = share(heights, at, south, column + 1);
    sum(&first, &second)
}
