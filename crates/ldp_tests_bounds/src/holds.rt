ghost use Rattle.std.specs.Prelude.{◌<◌};
ghost use Rattle.ldp_design.specs.Boxes.{LiesIn};
ghost use Rattle.ldp_design.specs.Designs.{IsAdmitted};
ghost use Rattle.ldp_tests_bounds.specs.Over.{IsOver};

use crate::answer::{Answer, bound_of};
use crate::halves::{first_of, half_of};
use crate::over::{bound, cost, defined, lower};
use crate::place::Place;
use ldp_design::{Design, DesignBox, Grids};
use ldp_problem::Bounds;

/// Is the bound of a box the cost of a design?
pub fn is_exact<B: Bounds>(
    bounds: &mut B,
    grids: &Grids,
    count: u32,
    b: &DesignBox,
    d: &Design,
) -> bool
    requires over { IsOver grids.now.families count (B.problem bounds.old) }
    requires lies { LiesIn grids.now.families b.now }
    requires admitted { IsAdmitted grids.now.families d.now }
    ensures { IsOver grids.now.families count (B.problem bounds.new) }
{
    let wanted = bound_of(cost(bounds, grids, count, d));
    bound(bounds, grids, count, b) == wanted
}

/// Does each box on the way from all designs of a family to one of them bound that design?
pub fn boxes_hold<B: Bounds>(
    bounds: &mut B,
    grids: &Grids,
    count: u32,
    all: &DesignBox,
    place: Place,
    last: &DesignBox,
    d: &Design,
) -> Answer
    requires over { IsOver grids.now.families count (B.problem bounds.old) }
    requires all { LiesIn grids.now.families all.now }
    requires last { LiesIn grids.now.families last.now }
    requires admitted { IsAdmitted grids.now.families d.now }
    ensures { IsOver grids.now.families count (B.problem bounds.new) }
{
    let mut b = *all;
    for number in 0..place.halvings {
        if !is_below(bounds, grids, count, &b, last, d) {
            return Answer::Not(number);
        }
        b = half_of(grids, &b, place.high);
    }
    if b == *last {
        Answer::All(place.halvings)
    } else {
        Answer::Not(place.halvings)
    }
}

/// Is a box at each cell below the last one, whose design is defined there?
fn is_below<B: Bounds>(
    bounds: &mut B,
    grids: &Grids,
    count: u32,
    b: &DesignBox,
    last: &DesignBox,
    d: &Design,
) -> bool
    requires over { IsOver grids.now.families count (B.problem bounds.old) }
    requires lies { LiesIn grids.now.families b.now }
    requires last { LiesIn grids.now.families last.now }
    requires admitted { IsAdmitted grids.now.families d.now }
    ensures { IsOver grids.now.families count (B.problem bounds.new) }
{
    for cell in 0..count {
        let low = lower(bounds, grids, count, b, cell);
        let size = lower(bounds, grids, count, last, cell);
        let is_defined = defined(bounds, grids, count, d, cell);
        if !(0 <= low && low <= size && is_defined) {
            return false;
        }
    }
    true
}
