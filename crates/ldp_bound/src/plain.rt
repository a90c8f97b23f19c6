ghost use Rattle.std.specs.Prelude.{◌≡◌, ◌≤◌, ◌<◌, length, true, is_some, IfOk, IfSome, option_map};
ghost use Rattle.std.specs.Prelude.{unsigned_abs};
ghost use Rattle.ldp_num.specs.Number.{limit};
ghost use Rattle.ldp_design.specs.Boxes.{LiesIn};
ghost use Rattle.ldp_design.specs.Designs.{IsAdmitted};
ghost use Rattle.ldp_problem.specs.Costs.{at_cells};
ghost use Rattle.ldp_bound.specs.Kept.{kept_delta, kept_lower};
ghost use Rattle.ldp_bound.specs.Plain.{HasNumber};
ghost use Rattle.ldp_bound.specs.Summary.{cost_over, tally_of};

use crate::Memory;
use crate::benches::Benches;
use crate::hints::Hints;
use crate::kept::Kept;
use crate::lows::{low, lows_by_stretches};
use crate::single::bound_of_single;
use crate::sizes::{cost_by_stretches, size};
use crate::summary::{Summary, signed};
use crate::tolerance::{signed_units, units};
use ldp_cells::Cells;
use ldp_design::{Design, DesignBox, Grids, is_single};
use ldp_problem::{Bound, Bounds, Cost};
use std::alloc::Global;

/// The bounder of families of designs over cells, whose least distortion of a box is that of its
/// range. It passes over stretches of cells that change no answer. Takes memory when it is made,
/// and never after.
#[derive(Drop)]
pub struct Plain {
    kept: Kept,
    /// Taken out for a call, and put back.
    benches: Option<Benches>,
    hints: Hints,
    asked: u64,
    ghost there: { is_some benches ≡ true },
}

impl Plain {
    ghost use Rattle.ldp_design.specs.Limits.{IsTolerance};
    ghost use Rattle.ldp_bound.specs.Plain.{plain_problem};

    /// Prepares the cells for the kinds of the families. The tolerance, up to 10^15, is in units of
    /// 10^-15.
    pub fn new(
        alloc: Global,
        grids: &Grids,
        cells: &Cells,
        tolerance: Option<i128>,
    ) -> Result<Plain, Memory>
        requires cells { 0 < length cells.now.cells }
        requires tolerance { IfSome tolerance IsTolerance }
        ensures problem { IfOk result (λ plain. ⟦<Plain as Bounds>⟧.problem plain
            ≡ plain_problem grids.now.families cells.now.cells (option_map unsigned_abs tolerance)) }
        ensures asked { IfOk result (λ plain. ⟦<Plain as Bounds>⟧.times plain ≡ 0) }
    {
        let kept = Kept::new(alloc, grids, cells, units(tolerance))?;
        let benches = Benches::new(alloc)?;
        Ok(Plain {
            kept,
            benches: Some(benches),
            hints: Hints::new(),
            asked: 0,
        })
    }
}

impl Bounds for Plain {
    ghost use Rattle.ldp_design.specs.Designs.{IsAdmitted};
    ghost use Rattle.ldp_problem.specs.Costs.{cost_of, count_up};
    ghost use Rattle.ldp_bound.specs.Plain.{HasNumber};
    ghost use Rattle.ldp_bound.specs.Kept.{kept_problem};

    ghost problem = { λ plain. kept_problem
        plain.kept.grids.families plain.kept.kinds plain.kept.count plain.kept.tolerance };

    ghost times = { λ plain. plain.asked };

    fn cells(&self) -> u32 {
        self.kept.count
    }

    fn tolerance(&self) -> Option<i128> {
        signed_units(self.kept.tolerance)
    }

    fn bound(&mut self, b: &DesignBox) -> Bound {
        self.asked = self.asked.saturating_add(1);
        if is_single(b) {
            let cost = cost_in(
                &self.kept,
                &mut self.benches,
                self.hints.cells(),
                &b.first(),
            );
            return bound_of_single(cost);
        }
        let lows = lows_in(&self.kept, &mut self.benches, self.hints.cells(), b);
        self.hints.add(lows.cell);
        lows.bound()
    }

    fn lower(&mut self, b: &DesignBox, cell: u32) -> i128 {
        self.asked = self.asked.saturating_add(1);
        let Some(mut benches) = self.benches.take() else {
            unreachable!();
        };
        let low = low(&self.kept, &mut benches, b, cell);
        self.benches = Some(benches);
        signed(low)
    }

    fn defined(&mut self, d: &Design, cell: u32) -> bool {
        self.asked = self.asked.saturating_add(1);
        let Some(mut benches) = self.benches.take() else {
            unreachable!();
        };
        let size = size(&self.kept, &mut benches, d, cell);
        self.benches = Some(benches);
        size.is_some()
    }

    fn cost(&mut self, d: &Design) -> Cost
        requires { IsAdmitted (⟦<Plain as Bounds>⟧.problem self.old).families d.now }
        ensures value { result ≡ cost_of (⟦<Plain as Bounds>⟧.problem self.old) d.now }
        ensures number { HasNumber result }
        ensures same { ⟦<Plain as Bounds>⟧.problem self.new ≡ ⟦<Plain as Bounds>⟧.problem self.old }
        ensures asked { ⟦<Plain as Bounds>⟧.times self.new
            ≡ count_up (⟦<Plain as Bounds>⟧.times self.old) }
    {
        self.asked = self.asked.saturating_add(1);
        cost_in(&self.kept, &mut self.benches, self.hints.cells(), d)
    }

    fn asked(&self) -> u64 {
        self.asked
    }

    ghost sound = { λ plain. plain.kept.sound };
}

/// The cost of a design, with the benches taken out and put back.
fn cost_in(kept: &Kept, place: &mut Option<Benches>, hints: &[u32], d: &Design) -> Cost
    requires there { is_some place.old ≡ true }
    requires admitted { IsAdmitted kept.now.grids.families d.now }
    ensures value { result ≡ cost_over kept.now.tolerance
        (kept_delta kept.now.grids.families kept.now.kinds d.now) kept.now.count }
    ensures number { HasNumber result }
    ensures there { is_some place.new ≡ true }
{
    let Some(benches) = place.take() else {
        unreachable!();
    };
    let (cost, benches) = cost_by_stretches(kept, benches, hints, d);
    *place = Some(benches);
    cost
}

/// What is told of a box, with the benches taken out and put back.
fn lows_in(kept: &Kept, place: &mut Option<Benches>, hints: &[u32], b: &DesignBox) -> Summary
    requires there { is_some place.old ≡ true }
    requires lies { LiesIn kept.now.grids.families b.now }
    ensures value { result ≡ tally_of kept.now.tolerance
        (at_cells (kept_lower kept.now.grids.families kept.now.kinds b.now) kept.now.count) }
    ensures small { result.value ≤ limit }
    ensures there { is_some place.new ≡ true }
{
    let Some(benches) = place.take() else {
        unreachable!();
    };
    let (lows, benches) = lows_by_stretches(kept, benches, hints, b);
    *place = Some(benches);
    lows
}
