ghost use Rattle.std.specs.Prelude.{◌≡◌, ◌≤◌, ◌<◌, length, IfSome};
ghost use Rattle.ldp_num.specs.Number.{IsNumber};
ghost use Rattle.ldp_stretch.specs.Hulls.{IsNumberAt, HoldsColumn, width_of};

use ldp_distortion::Prepared;
use ldp_range::{Range, hull, sharp};

/// The range of the result of the cell list at a place over the cells from one to another. None:
/// the results are undefined at one of these.
pub(crate) fn column(prepared: &Prepared, from: u32, to: u32, place: usize) -> Option<Range>
    requires some { from < to }
    requires inside { to ≤ length prepared.now.results }
    requires place { place < width_of prepared.now }
    ensures { IfSome result (HoldsColumn prepared.now.results from to place) }
{
    let mut range = sharp(number_at(prepared, from, place)?);
    for cell in from + 1..to {
        range = hull(range, sharp(number_at(prepared, cell, place)?));
    }
    Some(range)
}

fn number_at(prepared: &Prepared, cell: u32, place: usize) -> Option<i128>
    requires cell { cell < length prepared.now.results }
    requires place { place < width_of prepared.now }
    ensures value { IfSome result (IsNumberAt prepared.now.results cell place) }
    ensures number { IfSome result IsNumber }
{
    let row = prepared.cell_outs(cell)?;
    Some(row[place])
}
