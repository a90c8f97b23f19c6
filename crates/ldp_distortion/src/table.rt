ghost use Rattle.std.specs.Prelude.{◌≡◌, ◌<◌, ◌++◌, All, Some, IfOk, IfSome, OnOk, length, map};
ghost use Rattle.std.specs.Prelude.{option_map, slice_get};
ghost use Rattle.ldp_num.specs.Number.{IsNumber};
ghost use Rattle.ldp_distortion.specs.Inputs.{numbers};
ghost use Rattle.ldp_distortion.specs.Distortion.{cell_results};
ghost use Rattle.ldp_distortion.specs.Rows.{AreRows};

use crate::Memory;
use crate::inputs::cell_inputs;
use ldp_cells::Cells;
use ldp_num::{Fix, MOST_RESULTS};
use ldp_series::{CutRuns, List};
use std::alloc::Global;
use std::marker::Model;

/// How many inputs of the cell list cells of a row have in common: the latitude, its first.
const IN_A_ROW: u16 = 1;

/// The results of the cell list at each cell, or that they are undefined. The numbers of all cells
/// stand in one list, so many a cell; those of an undefined cell stand for nothing.
#[derive(Drop)]
pub struct Table {
    width: usize,
    defined: Vec<bool>,
    numbers: Vec<i128>,
}

impl Model for Table {
    ghost use Rattle.std.specs.Prelude.{List, Option, ℤ};
    ghost use Rattle.ldp_distortion.specs.Rows.{RowTable, rows, IsTable};

    ghost Value = { RowTable };

    ghost view = { λ table. record {
      width = table.width;
      rows = rows table.width table.defined.items table.numbers.items;
    } };

    ghost invariant = { λ table. IsTable table.width table.defined.items table.numbers.items };
}

impl Table {
    /// The table over cells: runs the cell list once at each.
    pub fn over(alloc: Global, list: &List, cells: &Cells) -> Result<Table, Memory>
        requires { list.now.inputs ≡ 3 }
        ensures width { IfOk result (λ table. table.width ≡ length list.now.outs) }
        ensures rows { IfOk result (λ table.
            table.rows ≡ map (cell_results list.now) cells.now.cells) }
        ensures full { IfOk result (λ table. AreRows (length list.now.outs) table.rows) }
    {
        let count = cells.len();
        let width = list.outs().len();
        let mut runs = CutRuns::new(alloc, list, IN_A_ROW)?;
        let mut buffer = [Fix { n: 0 }; MOST_RESULTS];
        let results = &mut buffer[..width];
        let mut defined = Vec::with_capacity(alloc, count as usize)?;
        let mut numbers = Vec::with_capacity(alloc, width * count as usize)?;
        for cell in 0..count {
            let inputs = cell_inputs(&cells.get(cell));
            defined.push(runs.run_into(&inputs, results))?;
            push_numbers(&mut numbers, results)?;
        }
        Ok(Table {
            width,
            defined,
            numbers,
        })
    }

    /// The number of cells.
    pub fn len(&self) -> u32
        ensures { result ≡ length self.now.rows }
    {
        self.defined.len() as u32
    }

    /// The results at a cell, if they are defined.
    pub fn row(&self, cell: u32) -> Option<&[i128]>
        requires { cell < length self.now.rows }
        ensures row { slice_get self.now.rows cell ≡ Some (option_map (λ row. row.now) result) }
        ensures width { IfSome result (λ row. length row.now ≡ self.now.width) }
        ensures numbers { IfSome result (λ row. All IsNumber row.now) }
    {
        if !self.defined[cell as usize] {
            return None;
        }
        let start = cell as usize * self.width;
        Some(&self.numbers[start..start + self.width])
    }
}

fn push_numbers(list: &mut Vec<i128>, values: &[Fix]) -> Result<(), Memory>
    ensures { OnOk result (list.new.items ≡ list.old.items ++ numbers values.now) }
{
    for value in values {
        list.push(value.n)?;
    }
    Ok(())
}
