ghost use Rattle.std.specs.Prelude.{◌≡◌, length, OnOk};
ghost use Rattle.ldp_cells.specs.Cells.{in_area};
ghost use Rattle.ldp_cells.specs.Rows.{IsRow, AreMarks};
ghost use Rattle.ldp_cells.specs.Tests.{test_of, HasEdges};

use crate::row::Row;
use crate::scanline::Scanline;
use ldp_quantity::{EASTMOST_LONGITUDE, HIGHEST_LATITUDE, LOWEST_LATITUDE, WESTMOST_LONGITUDE};
use ldp_zone::{Edge, Point};
use std::alloc::AllocError;

/// Where cells are sought: in a zone, or in the area of all zones.
#[derive(Drop)]
pub enum Region {
    /// The edges of all rings of a zone.
    Edges(Vec<Edge>),
    /// Longitude -180 to 360 and latitude -80 to 80 degrees.
    Area,
}

impl Region {
    /// Marks the columns whose centre lies in the region.
    pub fn mark(&self, row: &Row, line: &mut Scanline) -> Result<(), AllocError>
        requires edges { HasEdges self.now }
        requires row { IsRow row.now }
        requires each { length line.old.marks ≡ row.now.cols }
        ensures { OnOk result (AreMarks (test_of self.now) row.now line.new.marks) }
    {
        match self {
            Region::Edges(edges) => line.mark_inside(row, edges),
            Region::Area => {
                line.mark_area(row);
                Ok(())
            }
        }
    }
}

/// Whether a point lies in the area.
#[tactic(auto, unfolding(crate::specs::Cells::in_area))]
pub fn area_has(at: &Point) -> bool
    ensures { result ≡ in_area at.now }
{
    WESTMOST_LONGITUDE <= at.x
        && at.x <= EASTMOST_LONGITUDE
        && LOWEST_LATITUDE <= at.y
        && at.y <= HIGHEST_LATITUDE
}
