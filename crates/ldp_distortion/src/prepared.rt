ghost use Rattle.std.specs.Prelude.{◌≡◌, ◌↔◌, ◌<◌, ◌+◌, All, Some, None, IfOk, IfSome, length, map};
ghost use Rattle.std.specs.Prelude.{take, option_map, slice_get, if◌then◌else◌};
ghost use Rattle.ldp_num.specs.Number.{IsNumber};
ghost use Rattle.ldp_num.specs.Steps.{most_steps};
ghost use Rattle.ldp_num.specs.StepList.{value};
ghost use Rattle.ldp_num.specs.Written.{written};
ghost use Rattle.ldp_distortion.specs.Inputs.{AreNumbers, design_inputs as inputs_of_design};
ghost use Rattle.ldp_distortion.specs.Distortion.{distortions};
ghost use Rattle.ldp_distortion.specs.Prepared.{FitTogether, HasRoom, HasRows, prepared};
ghost use Rattle.ldp_distortion.specs.Prepared.{first_numbers, joined_at, distortions_from};
ghost use Rattle.ldp_distortion.specs.Prepared.{distortions_of};
ghost use Rattle.ldp_distortion.specs.Worst.{worst_of, IsUsable, IsValue, HasNumber, IsWithin};

use crate::Memory;
use crate::inputs::{Inputs, design_inputs};
use crate::table::Table;
use crate::worst::Worst;
use ldp_cells::Cells;
use ldp_num::{Bench, Fix, MOST_INPUTS, Num};
use ldp_series::Lists;
use std::alloc::Global;
use std::marker::Model;

/// Cells prepared for the lists of a projection, seen as the lists and, for each cell, the results
/// of the cell list, none where they are undefined.
#[derive(Drop)]
pub struct Prepared {
    lists: Lists,
    table: Table,
}

impl Model for Prepared {
    ghost use Rattle.ldp_distortion.specs.Prepared.{PreparedCells, IsPrepared};

    ghost Value = { PreparedCells };

    ghost view = { λ p. record { lists = p.lists; results = p.table.rows } };

    ghost invariant = { λ p. IsPrepared p.lists p.table };
}

impl Prepared {
    /// Runs the cell list once at each cell. The lists are spent also where memory is wanting.
    pub fn new(alloc: Global, lists: Lists, cells: &Cells) -> Result<Prepared, Memory>
        requires { FitTogether lists }
        ensures prepared { IfOk result (λ p. p ≡ prepared lists cells.now.cells) }
        ensures room { IfOk result (λ p. HasRoom p.lists most_steps) }
        ensures distortions { IfOk result (λ p.
            (at : Inputs) → distortions_of p at ≡ distortions lists at cells.now.cells) }
    {
        let table = Table::over(alloc, &lists.cell, cells)?;
        Ok(Prepared { lists, table })
    }

    /// The distortion of a design at a cell, in units of 10^-15. Takes no memory.
    pub fn delta(&self, bench: &mut Bench<Fix>, at: Inputs, cell: u32) -> Option<i128>
        requires numbers { AreNumbers at }
        requires room { HasRoom self.now.lists bench.old.room }
        requires cell { cell < length self.now.results }
        ensures distortion { slice_get (distortions_of self.now at) cell ≡ Some result }
        ensures number { IfSome result IsNumber }
        ensures room { bench.new.room ≡ bench.old.room }
    {
        let mut buffer = [Fix { n: 0 }; MOST_INPUTS];
        let inputs = &mut buffer[..self.lists.joint.inputs() as usize];
        if !self.put_design(bench, &at, inputs) {
            return None;
        }
        self.joined(bench, inputs, cell)
    }

    /// The worst of a design over the cells, of which there is at least one. Runs the design list
    /// once. Takes no memory.
    pub fn worst(&self, bench: &mut Bench<Fix>, at: Inputs) -> Worst
        requires numbers { AreNumbers at }
        requires room { HasRoom self.now.lists bench.old.room }
        requires some { 0 < length self.now.results }
        ensures worst { result ≡ worst_of (distortions_of self.now at) }
        ensures usable { IsValue result ↔ IsUsable (distortions_of self.now at) }
        ensures number { HasNumber result }
        ensures within { IsWithin (length self.now.results) result }
        ensures room { bench.new.room ≡ bench.old.room }
    {
        let mut buffer = [Fix { n: 0 }; MOST_INPUTS];
        let inputs = &mut buffer[..self.lists.joint.inputs() as usize];
        if !self.put_design(bench, &at, inputs) {
            return Worst::Unusable { cell: 0 };
        }
        self.worst_from(bench, inputs)
    }

    /// The lists of the projection, which fit together.
    pub fn lists(&self) -> &Lists
        ensures lists { result.now ≡ self.now.lists }
        ensures fit { FitTogether self.now.lists }
        ensures room { HasRoom self.now.lists most_steps }
        ensures rows { HasRows self.now }
    {
        &self.lists
    }

    /// The results of the cell list at a cell, none where it is undefined there. Takes no memory.
    pub fn cell_outs(&self, cell: u32) -> Option<&[i128]>
        requires { cell < length self.now.results }
        ensures results { slice_get self.now.results cell
            ≡ Some (option_map (λ results. results.now) result) }
        ensures count { IfSome result (λ results.
            length results.now ≡ length self.now.lists.cell.outs) }
        ensures numbers { IfSome result (λ results. All IsNumber results.now) }
    {
        self.table.row(cell)
    }

    /// The distortion at a cell in any carrier, where the first of the joint list's inputs are the
    /// results of the design list; these stay. Takes no memory.
    pub fn joined_at<N: Num>(&self, bench: &mut Bench<N>, inputs: &mut [N], cell: u32) -> Option<N>
        requires room { HasRoom self.now.lists bench.old.room }
        requires inputs { length inputs.old
            ≡ length self.now.lists.design.outs + length self.now.lists.cell.outs }
        requires cell { cell < length self.now.results }
        ensures distortion { option_map N.meaning result ≡ joined_at (written N.CARRIER) self.now
            (map N.meaning (take (length self.now.lists.design.outs) inputs.old)) cell }
        ensures kept { take (length self.now.lists.design.outs) inputs.new
            ≡ take (length self.now.lists.design.outs) inputs.old }
        ensures room { bench.new.room ≡ bench.old.room }
    {
        let results = self.table.row(cell)?;
        let (_, of_cell) = inputs.split_at_mut(self.lists.design.outs().len());
        put_constants(results, of_cell);
        self.lists.joint.run_first(bench, inputs)
    }

    /// Runs the design list into the first of the joint list's inputs: true exactly where it has a
    /// value.
    fn put_design(&self, bench: &mut Bench<Fix>, at: &Inputs, inputs: &mut [Fix]) -> bool
        requires numbers { AreNumbers at.now }
        requires room { HasRoom self.now.lists bench.old.room }
        requires inputs { length inputs.old
            ≡ length self.now.lists.design.outs + length self.now.lists.cell.outs }
        ensures design { value self.now.lists.design (inputs_of_design at.now)
            ≡ (if result then Some (first_numbers self.now inputs.new) else None) }
        ensures room { bench.new.room ≡ bench.old.room }
    {
        let (design, _) = inputs.split_at_mut(self.lists.design.outs().len());
        self.lists
            .design
            .run_into(bench, &design_inputs(at), design)
    }

    /// The same over numbers.
    fn joined(&self, bench: &mut Bench<Fix>, inputs: &mut [Fix], cell: u32) -> Option<i128>
        requires room { HasRoom self.now.lists bench.old.room }
        requires inputs { length inputs.old
            ≡ length self.now.lists.design.outs + length self.now.lists.cell.outs }
        requires cell { cell < length self.now.results }
        ensures distortion { slice_get
            (distortions_from self.now (Some (first_numbers self.now inputs.old))) cell
            ≡ Some result }
        ensures number { IfSome result IsNumber }
        ensures kept { take (length self.now.lists.design.outs) inputs.new
            ≡ take (length self.now.lists.design.outs) inputs.old }
        ensures room { bench.new.room ≡ bench.old.room }
    {
        let distortion = self.joined_at(bench, inputs, cell)?;
        Some(distortion.n)
    }

    /// The worst over the cells, where the first of the inputs are the results of the design list.
    fn worst_from(&self, bench: &mut Bench<Fix>, inputs: &mut [Fix]) -> Worst
        requires room { HasRoom self.now.lists bench.old.room }
        requires inputs { length inputs.old
            ≡ length self.now.lists.design.outs + length self.now.lists.cell.outs }
        requires some { 0 < length self.now.results }
        ensures worst { result ≡ worst_of
            (distortions_from self.now (Some (first_numbers self.now inputs.old))) }
        ensures number { HasNumber result }
        ensures within { IsWithin (length self.now.results) result }
        ensures room { bench.new.room ≡ bench.old.room }
    {
        let mut value = 0;
        let mut worst = 0;
        for cell in 0..self.table.len() {
            let Some(distortion) = self.joined(bench, inputs, cell) else {
                return Worst::Unusable { cell };
            };
            let size = distortion.unsigned_abs();
            if size > value {
                value = size;
                worst = cell;
            }
        }
        Worst::Is {
            value: value as i128,
            cell: worst,
        }
    }
}

/// Writes numbers as constants into inputs, of which there are as many.
fn put_constants<N: Num>(values: &[i128], inputs: &mut [N])
    requires values { All IsNumber values.now }
    requires count { length inputs.old ≡ length values.now }
    ensures { map N.meaning inputs.new ≡ map (written N.CARRIER).constant values.now }
{
    for (i, value) in values.iter().enumerate() {
        inputs[i] = N::constant(*value);
    }
}
