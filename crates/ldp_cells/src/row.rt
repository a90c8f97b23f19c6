ghost use Rattle.std.specs.Prelude.{◌≡◌, ℕ, ◌+◌, ◌*◌, ◌^◌, ◌<◌, ◌≤◌, ◌≢◌, nat_lt, pos, int_lt};
ghost use Rattle.std.specs.Prelude.{unsigned_abs};
ghost use Rattle.ldp_zone.specs.Inside.{meets_east};
ghost use Rattle.ldp_zone.specs.Area.{IsEdge, IsPlace};
ghost use Rattle.ldp_cells.specs.Rows.{column_centre, gap, IsRow, IsRowOf};

use ldp_heights::Heights;
use ldp_zone::{Edge, Point};

/// The centres of a row of places, which stand at equal distances.
#[derive(Clone, Copy)]
pub struct Row {
    /// The longitude of the first centre, in 10^-12 degrees.
    pub x: i128,
    /// The latitude of all centres, in 10^-12 degrees.
    pub y: i128,
    /// From one centre to the next, in 10^-12 degrees.
    pub spacing: u64,
    pub cols: u32,
}

impl Row {
    /// The row with this number, from 0 in the north.
    pub fn of_grid(heights: &Heights, number: u32) -> Self
        requires { number < heights.now.rows }
        ensures value { IsRowOf heights.now number result }
        ensures range { IsRow result }
    {
        let cols = heights.cols();
        let (x, y) = heights.centre(number, 0);
        Row {
            x,
            y,
            spacing: heights.spacing(),
            cols,
        }
    }

    /// The centre of a column.
    pub fn centre(&self, column: u32) -> Point
        requires range { IsRow self.now }
        requires column { column ≤ self.now.cols }
        ensures value { result ≡ column_centre self.now column }
        ensures place { IsPlace result }
    {
        let east = u128::from(column) * u128::from(self.spacing);
        Point {
            x: self.x + east as i128,
            y: self.y,
        }
    }

    /// The number of columns whose centre lies strictly west of where the line through an edge
    /// meets the height of the row.
    pub fn columns_west(&self, edge: &Edge) -> u32
        requires range { IsRow self.now }
        requires edge { IsEdge edge.now }
        requires rise { edge.now.start.y ≢ edge.now.end.y }
        ensures few { result ≤ self.now.cols }
        ensures value { (column : ℕ) → column < self.now.cols
            → nat_lt column result ≡ meets_east (column_centre self.now column) edge.now }
    {
        let rise = edge.start.y.abs_diff(edge.end.y);
        self.columns_before(self.gap(edge), u128::from(self.spacing) * rise)
    }

    /// How far east of the first centre the line through an edge meets the height of the row, times
    /// the edge's rise.
    #[tactic(auto, unfolding(crate::specs::Rows::gap))]
    fn gap(&self, edge: &Edge) -> i128
        requires range { IsRow self.now }
        requires edge { IsEdge edge.now }
        ensures value { result ≡ gap self.now edge.now }
        ensures small { unsigned_abs result ≤ 32 * 10 ^ 34 }
    {
        let first = self.centre(0);
        let edge_east = edge.edge_east(&first);
        let point_east = edge.point_east(&first);
        if edge.start.y < edge.end.y {
            edge_east - point_east
        } else {
            point_east - edge_east
        }
    }

    /// The number of columns that are less than so far from the first, where each is a step from
    /// the one before.
    pub fn columns_before(&self, distance: i128, step: u128) -> u32
        requires range { IsRow self.now }
        requires step { 1 ≤ step }
        ensures few { result ≤ self.now.cols }
        ensures value { (column : ℕ) → column < self.now.cols
            → nat_lt column result ≡ int_lt (pos (column * step)) distance }
    {
        if distance <= 0 {
            return 0;
        }
        let count = (distance as u128 - 1) / step + 1;
        count.min(u128::from(self.cols)) as u32
    }
}
