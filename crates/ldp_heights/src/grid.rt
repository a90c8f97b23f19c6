ghost use Rattle.std.specs.Prelude.{◌≡◌, ◌<◌, ◌≤◌, ◌*◌, neg_ℤ, length, All};
ghost use Rattle.ldp_quantity.specs.Between.{IsBetween};
ghost use Rattle.ldp_quantity.specs.Quantity.{degrees};
ghost use Rattle.ldp_heights.specs.Grid.{place_height, centre_x, centre_y, most_places};
ghost use Rattle.ldp_heights.specs.Grid.{IsHeight, IsHeightGrid, IsSpacing};
ghost use Rattle.ldp_heights.specs.Ranges.{IsLayout};
ghost use Rattle.ldp_heights.specs.Reading.{grid_with};
ghost use Rattle.ldp_heights.specs.Seen.{layout_seen};

use crate::coordinate::{Coordinate, centre_along};
use crate::layout::Layout;
use std::marker::Model;

/// A grid of ellipsoid heights over latitude and longitude, as it was read.
#[derive(Drop)]
pub struct Heights {
    rows: u32,
    cols: u32,
    x: Coordinate,
    y: Coordinate,
    spacing: u64,
    heights: Vec<Option<i32>>,
}

impl Model for Heights {
    ghost use Rattle.ldp_heights.specs.Grid.{HeightGrid, IsHeightGrid};
    ghost use Rattle.ldp_heights.specs.Seen.{coordinate_seen};

    ghost Value = { HeightGrid };

    ghost view = { λ grid. record {
      rows = grid.rows;
      cols = grid.cols;
      x = coordinate_seen grid.x;
      y = coordinate_seen grid.y;
      spacing = grid.spacing;
      heights = grid.heights.items;
    } };

    ghost invariant = { λ grid. IsHeightGrid record {
      rows = grid.rows;
      cols = grid.cols;
      x = coordinate_seen grid.x;
      y = coordinate_seen grid.y;
      spacing = grid.spacing;
      heights = grid.heights.items;
    } };
}

impl Heights {
    /// The grid of a header with the heights of all its places.
    pub(crate) fn with_layout(layout: &Layout, heights: Vec<Option<i32>>) -> Self
        requires layout { IsLayout (layout_seen layout.now) }
        requires each_place { length heights.items ≡ layout.now.cols * layout.now.rows }
        requires range { All IsHeight heights.items }
        ensures { result ≡ grid_with (layout_seen layout.now) heights.items }
    {
        Heights {
            rows: layout.rows,
            cols: layout.cols,
            x: layout.x,
            y: layout.y,
            spacing: layout.spacing,
            heights,
        }
    }

    /// At least one.
    pub fn rows(&self) -> u32
        ensures value { result ≡ self.now.rows }
        ensures range { (1 ≤ result) × (result ≤ most_places) }
        ensures keeps { IsHeightGrid self.now }
    {
        self.rows
    }

    /// At least one.
    pub fn cols(&self) -> u32
        ensures value { result ≡ self.now.cols }
        ensures range { (1 ≤ result) × (result ≤ most_places) }
        ensures keeps { IsHeightGrid self.now }
    {
        self.cols
    }

    /// From one column or row to the next, in 10^-12 degrees.
    pub fn spacing(&self) -> u64
        ensures value { result ≡ self.now.spacing }
        ensures range { IsSpacing result }
    {
        self.spacing
    }

    /// The height of a place in millimetres, or None where it is missing; row 0 is the north row.
    pub fn mm(&self, row: u32, col: u32) -> Option<i32>
        requires row { row < self.now.rows }
        requires col { col < self.now.cols }
        ensures value { result ≡ place_height self.now row col }
        ensures range { IsHeight result }
    {
        let place = row as usize * self.cols as usize + col as usize;
        self.heights[place]
    }

    /// The x (longitude) and y (latitude) of a place's centre, in 10^-12 degrees.
    pub fn centre(&self, row: u32, col: u32) -> (i128, i128)
        requires row { row < self.now.rows }
        requires col { col < self.now.cols }
        ensures x { result.0 ≡ centre_x self.now col }
        ensures y { result.1 ≡ centre_y self.now row }
        ensures x_range { IsBetween (neg_ℤ (degrees 360)) (degrees 100_000_000) result.0 }
        ensures y_range { IsBetween (neg_ℤ (degrees 360)) (degrees 100_000_000) result.1 }
    {
        let x = centre_along(&self.x, self.spacing, col);
        let y = centre_along(&self.y, self.spacing, self.rows - 1 - row);
        (x, y)
    }
}
