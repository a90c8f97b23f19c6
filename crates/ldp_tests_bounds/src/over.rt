//! The calls of a bounder over these families and so many cells, which stays one.
ghost use Rattle.std.specs.Prelude.{◌<◌};
ghost use Rattle.ldp_design.specs.Boxes.{LiesIn};
ghost use Rattle.ldp_design.specs.Designs.{IsAdmitted};
ghost use Rattle.ldp_tests_bounds.specs.Over.{IsOver};

use ldp_design::{Design, DesignBox, Grids};
use ldp_problem::{Bound, Bounds, Cost};

pub fn bound<B: Bounds>(bounds: &mut B, grids: &Grids, count: u32, b: &DesignBox) -> Bound
    requires over { IsOver grids.now.families count (B.problem bounds.old) }
    requires lies { LiesIn grids.now.families b.now }
    ensures { IsOver grids.now.families count (B.problem bounds.new) }
{
    bounds.bound(b)
}

pub fn lower<B: Bounds>(bounds: &mut B, grids: &Grids, count: u32, b: &DesignBox, cell: u32) -> i128
    requires over { IsOver grids.now.families count (B.problem bounds.old) }
    requires lies { LiesIn grids.now.families b.now }
    requires cell { cell < count }
    ensures { IsOver grids.now.families count (B.problem bounds.new) }
{
    bounds.lower(b, cell)
}

pub fn defined<B: Bounds>(bounds: &mut B, grids: &Grids, count: u32, d: &Design, cell: u32) -> bool
    requires over { IsOver grids.now.families count (B.problem bounds.old) }
    requires admitted { IsAdmitted grids.now.families d.now }
    requires cell { cell < count }
    ensures { IsOver grids.now.families count (B.problem bounds.new) }
{
    bounds.defined(d, cell)
}

pub fn cost<B: Bounds>(bounds: &mut B, grids: &Grids, count: u32, d: &Design) -> Cost
    requires over { IsOver grids.now.families count (B.problem bounds.old) }
    requires admitted { IsAdmitted grids.now.families d.now }
    ensures { IsOver grids.now.families count (B.problem bounds.new) }
{
    bounds.cost(d)
}
