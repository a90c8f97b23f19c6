ghost use Rattle.std.specs.Prelude.{◌<◌, length, IfOk};
ghost use Rattle.ldp_answer.specs.Works.{Works};
ghost use Rattle.ldp_answer.specs.Cells.{some_cells, area_read, cells_read};

use crate::fault::WorkFault;
use ldp_cells::{Cells, area_cells, zone_cells};
use ldp_heights::Heights;
use ldp_message::Refusal;
use ldp_zone::Zone;
use std::alloc::Global;

/// The cells of a zone, of which there is at least one.
pub fn cells_over(alloc: Global, zone: &Zone, heights: &Heights) -> Result<Cells, WorkFault>
    ensures cells { Works result (cells_read zone.now heights.now) }
    ensures some { IfOk result (λ list. 0 < length list.cells) }
{
    some_cells(zone_cells(alloc, zone, heights)?)
}

/// The cells of a grid, of which there is at least one.
pub fn area_over(alloc: Global, heights: &Heights) -> Result<Cells, WorkFault>
    ensures cells { Works result (area_read heights.now) }
    ensures some { IfOk result (λ list. 0 < length list.cells) }
{
    some_cells(area_cells(alloc, heights)?)
}

fn some_cells(cells: Cells) -> Result<Cells, WorkFault>
    ensures cells { Works result (some_cells cells) }
    ensures some { IfOk result (λ list. 0 < length list.cells) }
{
    if cells.len() == 0 {
        return Err(WorkFault::Refused(Refusal::NoCell));
    }
    Ok(cells)
}
