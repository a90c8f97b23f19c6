ghost use Rattle.std.specs.Prelude.{◌≡◌, ◌*◌, ◌≤◌};
ghost use Rattle.ldp_heights.specs.Grid.{most_places};
ghost use Rattle.ldp_heights.specs.Ranges.{IsLayout};
ghost use Rattle.ldp_heights.specs.Seen.{layout_seen};

use crate::class::Class;
use crate::coordinate::Coordinate;

/// The most places of a grid, and so the most rows and columns.
pub const MOST_PLACES: u32 = 4_000_000;

/// What a whole header says of the grid.
#[derive(Clone, Copy)]
pub struct Layout {
    pub cols: u32,
    pub rows: u32,
    pub x: Coordinate,
    pub y: Coordinate,
    pub spacing: u64,
    /// The class of a missing height.
    pub missing: Class,
}

impl Layout {
    /// The number of places, rows times columns.
    pub fn places(&self) -> usize
        requires { IsLayout (layout_seen self.now) }
        ensures value { result ≡ self.now.cols * self.now.rows }
        ensures range { result ≤ most_places }
    {
        (self.cols * self.rows) as usize
    }
}
