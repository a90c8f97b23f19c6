ghost use Rattle.std.specs.Prelude.{◌≡◌, ◌≢◌, Err, IfOk, All};
ghost use Rattle.ldp_cells.specs.Cells.{cells_where, zone_cells, area_cells};
ghost use Rattle.ldp_cells.specs.Range.{HasGridHeight};
ghost use Rattle.ldp_cells.specs.Rows.{IsNearTest};
ghost use Rattle.ldp_cells.specs.Tests.{test_of, HasEdges};

use crate::cell::Cells;
use crate::fault::CellsFault;
use crate::outline::edges_of;
use crate::region::Region;
use crate::row::Row;
use crate::scanline::Scanline;
use crate::tally::Tally;
use ldp_heights::Heights;
use ldp_zone::Zone;
use std::alloc::Global;

/// The cells of a zone.
pub fn zone_cells(alloc: Global, zone: &Zone, heights: &Heights) -> Result<Cells, CellsFault>
    ensures heights { IfOk result (λ list. All HasGridHeight list.cells) }
    ensures value { result ≢ Err CellsFault.Memory → result ≡ zone_cells zone.now heights.now }
{
    let edges = edges_of(alloc, zone)?;
    cells_where(alloc, &Region::Edges(edges), heights)
}

/// The cells of the area of longitude -180 to 360 and latitude -80 to 80 degrees.
pub fn area_cells(alloc: Global, heights: &Heights) -> Result<Cells, CellsFault>
    ensures heights { IfOk result (λ list. All HasGridHeight list.cells) }
    ensures value { result ≢ Err CellsFault.Memory → result ≡ area_cells heights.now }
{
    cells_where(alloc, &Region::Area, heights)
}

fn cells_where(alloc: Global, region: &Region, heights: &Heights) -> Result<Cells, CellsFault>
    requires edges { HasEdges region.now }
    requires near { IsNearTest (test_of region.now) }
    ensures heights { IfOk result (λ list. All HasGridHeight list.cells) }
    ensures value { result ≢ Err CellsFault.Memory
        → result ≡ cells_where (test_of region.now) heights.now }
{
    let mut line = Scanline::new(alloc, heights.cols())?;
    let mut tally = Tally::new(alloc, heights.cols() * heights.rows())?;
    for number in 0..heights.rows() {
        region.mark(&Row::of_grid(heights, number), &mut line)?;
        tally.take_row(heights, number, line.marks())?;
    }
    tally.finish()
}
