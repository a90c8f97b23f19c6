ghost use Rattle.std.specs.Prelude.{◌≡◌, ◌<◌, ◌≤ℤ◌, pos, length, IfOk, IfSome, option_map};
ghost use Rattle.std.specs.Prelude.{unsigned_abs};

use crate::Memory;
use crate::benches::Benches;
use crate::kept::Kept;
use crate::lows::{low, lows};
use crate::single::bound_of_single;
use crate::sizes::{cost, size};
use crate::summary::signed;
use crate::tolerance::{signed_units, units};
use ldp_cells::Cells;
use ldp_design::{Design, DesignBox, Grids, is_single};
use ldp_problem::{Bound, Bounds, Cost};
use std::alloc::Global;

/// The same bounder as `Plain` in the definition's own way: it looks at every cell in every call.
/// It is there to compare answers and times with.
#[derive(Drop)]
pub struct CellByCell {
    kept: Kept,
    benches: Benches,
    asked: u64,
}

impl CellByCell {
    ghost use Rattle.ldp_design.specs.Limits.{IsTolerance};
    ghost use Rattle.ldp_bound.specs.Plain.{plain_problem};

    /// Prepares the cells for the kinds of the families. The tolerance, up to 10^15, is in units of
    /// 10^-15.
    pub fn new(
        alloc: Global,
        grids: &Grids,
        cells: &Cells,
        tolerance: Option<i128>,
    ) -> Result<CellByCell, Memory>
        requires cells { 0 < length cells.now.cells }
        requires tolerance { IfSome tolerance IsTolerance }
        ensures problem { IfOk result (λ bounder. ⟦<CellByCell as Bounds>⟧.problem bounder
            ≡ plain_problem grids.now.families cells.now.cells (option_map unsigned_abs tolerance)) }
        ensures asked { IfOk result (λ bounder. ⟦<CellByCell as Bounds>⟧.times bounder ≡ 0) }
    {
        let kept = Kept::new(alloc, grids, cells, units(tolerance))?;
        let benches = Benches::new(alloc)?;
        Ok(CellByCell {
            kept,
            benches,
            asked: 0,
        })
    }
}

impl Bounds for CellByCell {
    ghost use Rattle.ldp_design.specs.Designs.{IsAdmitted};
    ghost use Rattle.ldp_problem.specs.Costs.{cost_of, count_up};
    ghost use Rattle.ldp_bound.specs.Plain.{HasNumber};
    ghost use Rattle.ldp_bound.specs.Kept.{kept_problem};

    ghost problem = { λ bounder. kept_problem
        bounder.kept.grids.families bounder.kept.kinds bounder.kept.count bounder.kept.tolerance };

    ghost times = { λ bounder. bounder.asked };

    fn cells(&self) -> u32 {
        self.kept.count
    }

    fn tolerance(&self) -> Option<i128> {
        signed_units(self.kept.tolerance)
    }

    fn bound(&mut self, b: &DesignBox) -> Bound {
        self.asked = self.asked.saturating_add(1);
        if is_single(b) {
            let cost = cost(&self.kept, &mut self.benches, &b.first());
            return bound_of_single(cost);
        }
        lows(&self.kept, &mut self.benches, b).bound()
    }

    fn lower(&mut self, b: &DesignBox, cell: u32) -> i128 {
        self.asked = self.asked.saturating_add(1);
        signed(low(&self.kept, &mut self.benches, b, cell))
    }

    fn defined(&mut self, d: &Design, cell: u32) -> bool {
        self.asked = self.asked.saturating_add(1);
        size(&self.kept, &mut self.benches, d, cell).is_some()
    }

    fn cost(&mut self, d: &Design) -> Cost
        requires { IsAdmitted (⟦<CellByCell as Bounds>⟧.problem self.old).families d.now }
        ensures value { result ≡ cost_of (⟦<CellByCell as Bounds>⟧.problem self.old) d.now }
        ensures number { HasNumber result }
        ensures same { ⟦<CellByCell as Bounds>⟧.problem self.new
            ≡ ⟦<CellByCell as Bounds>⟧.problem self.old }
        ensures asked { ⟦<CellByCell as Bounds>⟧.times self.new
            ≡ count_up (⟦<CellByCell as Bounds>⟧.times self.old) }
    {
        self.asked = self.asked.saturating_add(1);
        cost(&self.kept, &mut self.benches, d)
    }

    fn asked(&self) -> u64 {
        self.asked
    }

    ghost sound = { λ bounder. bounder.kept.sound };
}
