ghost use Rattle.std.specs.Prelude.{◌≡◌, ◌≤◌, length, All, IfOk};
ghost use Rattle.ldp_cells.specs.Cells.{most_cells};
ghost use Rattle.ldp_cells.specs.Range.{IsInRange};

use crate::cell::{Cell, Cells};
use std::alloc::{AllocError, Global};

/// The cells of stations along a line, in the order of the line; none of them is missing.
pub fn station_cells(alloc: Global, list: &[Cell]) -> Result<Cells, AllocError>
    requires few { length list.now ≤ most_cells }
    requires in_range { All IsInRange list.now }
    ensures { IfOk result (λ cells. cells ≡ record { cells = list.now; missing = 0 }) }
{
    Ok(Cells::new(list.to_vec(alloc)?, 0))
}
