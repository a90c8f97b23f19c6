ghost use Rattle.std.specs.Prelude.{◌≡◌, ◌≤◌, length, All, IfOk};
ghost use Rattle.ldp_distortion.specs.Distortion.{distortions};
ghost use Rattle.ldp_distortion.specs.Inputs.{AreNumbers};
ghost use Rattle.ldp_distortion.specs.Prepared.{HasRoom};
ghost use Rattle.ldp_table.specs.Rows.{rows_of, IsOver, IsRow};

use ldp_cells::{Cell, Cells};
use ldp_distortion::{Inputs, Prepared};
use ldp_num::{Bench, Fix};
use std::alloc::{AllocError as Memory, Global};

/// A cell and the distortion of a design there.
#[derive(Clone, Copy, Debug, PartialEq, Eq)]
pub struct Row {
    pub cell: Cell,
    /// In units of 10^-15.
    pub distortion: i128,
}

/// The rows of a table, in the order of the cells.
pub fn rows_of(
    alloc: Global,
    prepared: &Prepared,
    bench: &mut Bench<Fix>,
    cells: &Cells,
    at: Inputs,
) -> Result<Vec<Row>, Memory>
    requires numbers { AreNumbers at }
    requires room { HasRoom prepared.now.lists bench.old.room }
    requires over { IsOver prepared.now cells.now.cells }
    ensures rows { IfOk result (λ rows. rows.items
        ≡ rows_of cells.now.cells (distortions prepared.now.lists at cells.now.cells)) }
    ensures each { IfOk result (λ rows. All IsRow rows.items) }
    ensures few { IfOk result (λ rows. length rows.items ≤ 200_000) }
    ensures room { bench.new.room ≡ bench.old.room }
{
    let count = cells.len();
    let mut rows = Vec::with_capacity(alloc, count as usize)?;
    for i in 0..count {
        if let Some(distortion) = prepared.delta(bench, at, i) {
            rows.push(Row {
                cell: cells.get(i),
                distortion,
            })?;
        }
    }
    Ok(rows)
}
