ghost use Rattle.std.specs.Prelude.{◌≡◌, ◌<◌, ◌≤◌, length, All, Some, slice_get, IfOk};
ghost use Rattle.ldp_cells.specs.Range.{IsInRange, IsCellList, HasGridHeight, IsRise};
ghost use Rattle.ldp_cells.specs.Range.{raised, raised_cell};
ghost use Rattle.ldp_cells.specs.Cells.{most_cells};

use std::alloc::{AllocError, Global};
use std::marker::Model;

/// A place of a height grid that has a height and whose centre lies in the zone.
#[derive(Clone, Copy, Debug, PartialEq, Eq)]
pub struct Cell {
    /// The row, from 0 in the north.
    pub row: u32,
    /// The column, from 0 in the west.
    pub col: u32,
    /// The longitude of the centre, in 10^-12 degrees.
    pub x: i128,
    /// The latitude of the centre, in 10^-12 degrees.
    pub y: i128,
    /// The height, in millimetres.
    pub mm: i32,
}

impl Cell {
    /// The same cell, so many millimetres higher.
    fn raised(&self, by: i32) -> Cell
        requires rise { IsRise by }
        requires range { IsInRange self.now }
        requires height { HasGridHeight self.now }
        ensures value { result ≡ raised_cell by self.now }
        ensures range { IsInRange result }
    {
        Cell {
            mm: self.mm + by,
            ..*self
        }
    }
}

/// Cells in row order, at most 200,000, and how many places beside them lie in the zone and have no
/// height.
#[derive(Drop)]
pub struct Cells {
    cells: Vec<Cell>,
    missing: u32,
}

impl Model for Cells {
    ghost use Rattle.ldp_cells.specs.Cells.{CellList};
    ghost use Rattle.ldp_cells.specs.Range.{IsCellList};

    ghost Value = { CellList };

    ghost view = { λ list. record { cells = list.cells.items; missing = list.missing } };

    ghost invariant = { λ list. IsCellList record {
      cells = list.cells.items;
      missing = list.missing;
    } };
}

impl Cells {
    pub(crate) fn new(cells: Vec<Cell>, missing: u32) -> Self
        requires few { length cells.items ≤ most_cells }
        requires in_range { All IsInRange cells.items }
        ensures { result ≡ record { cells = cells.items; missing = missing } }
    {
        Cells { cells, missing }
    }

    /// The number of cells.
    pub fn len(&self) -> u32
        ensures value { result ≡ length self.now.cells }
        ensures few { result ≤ most_cells }
        ensures keeps { IsCellList self.now }
    {
        self.cells.len() as u32
    }

    /// The cell with this index.
    pub fn get(&self, i: u32) -> Cell
        requires { i < length self.now.cells }
        ensures value { slice_get self.now.cells i ≡ Some result }
        ensures in_range { IsInRange result }
    {
        self.cells[i as usize]
    }

    /// The number of places that lie in the zone and have no height.
    pub fn missing(&self) -> u32
        ensures { result ≡ self.now.missing }
    {
        self.missing
    }

    /// The same cells, each so many millimetres higher.
    pub fn raised(&self, alloc: Global, by: i32) -> Result<Cells, AllocError>
        requires rise { IsRise by }
        requires heights { All HasGridHeight self.now.cells }
        ensures { IfOk result (λ list. list ≡ record {
          cells = raised by self.now.cells;
          missing = self.now.missing;
        }) }
    {
        let mut cells = Vec::with_capacity(alloc, self.cells.len())?;
        for cell in &self.cells {
            cells.push(cell.raised(by))?;
        }
        Ok(Cells::new(cells, self.missing))
    }
}
