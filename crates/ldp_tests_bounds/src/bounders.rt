ghost use Rattle.std.specs.Prelude.{◌<◌, length, IfOk, IfSome};
ghost use Rattle.ldp_design.specs.Limits.{IsTolerance};
ghost use Rattle.ldp_tests_bounds.specs.Over.{IsOver};

use crate::compare::comparisons;
use crate::questions::answers;
use ldp_bound::{Bounds, CellByCell, Memory, Plain};
use ldp_cells::Cells;
use ldp_design::Grids;
use std::alloc::Global;

/// Prints the answers of the bounder over stretches of cells.
pub fn ask_plain(
    rt: &(impl Print + AllocGlobal),
    grids: &Grids,
    cells: &Cells,
    tolerance: Option<i128>,
    questions: &str,
) -> anyhow::Result<()>
    requires cells { 0 < length cells.now.cells }
    requires tolerance { IfSome tolerance IsTolerance }
{
    let bounder = plain(rt.alloc(), grids, cells, tolerance)?;
    answers(rt, bounder, grids, cells.len(), questions)
}

/// Prints whether both bounders answer alike.
pub fn compare_both(
    rt: &(impl Print + AllocGlobal),
    grids: &Grids,
    cells: &Cells,
    tolerance: Option<i128>,
    questions: &str,
) -> anyhow::Result<()>
    requires cells { 0 < length cells.now.cells }
    requires tolerance { IfSome tolerance IsTolerance }
{
    let other = cell_by_cell(rt.alloc(), grids, cells, tolerance)?;
    compare_plain(rt, grids, cells, tolerance, other, questions)
}

/// Prints whether the bounder over stretches of cells answers as another one does.
fn compare_plain<B: Bounds + Drop>(
    rt: &(impl Print + AllocGlobal),
    grids: &Grids,
    cells: &Cells,
    tolerance: Option<i128>,
    other: B,
    questions: &str,
) -> anyhow::Result<()>
    requires cells { 0 < length cells.now.cells }
    requires tolerance { IfSome tolerance IsTolerance }
    requires other { IsOver grids.now.families (length cells.now.cells) (B.problem other) }
{
    let bounder = plain(rt.alloc(), grids, cells, tolerance)?;
    comparisons(rt, bounder, other, grids, cells.len(), questions)
}

fn plain(
    alloc: Global,
    grids: &Grids,
    cells: &Cells,
    tolerance: Option<i128>,
) -> Result<Plain, Memory>
    requires cells { 0 < length cells.now.cells }
    requires tolerance { IfSome tolerance IsTolerance }
    ensures { IfOk result (λ plain.
        IsOver grids.now.families (length cells.now.cells) (⟦<Plain as Bounds>⟧.problem plain)) }
{
    Plain::new(alloc, grids, cells, tolerance)
}

fn cell_by_cell(
    alloc: Global,
    grids: &Grids,
    cells: &Cells,
    tolerance: Option<i128>,
) -> Result<CellByCell, Memory>
    requires cells { 0 < length cells.now.cells }
    requires tolerance { IfSome tolerance IsTolerance }
    ensures { IfOk result (λ bounder.
        IsOver grids.now.families (length cells.now.cells)
        (⟦<CellByCell as Bounds>⟧.problem bounder)) }
{
    CellByCell::new(alloc, grids, cells, tolerance)
}
