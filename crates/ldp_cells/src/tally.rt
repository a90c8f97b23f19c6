ghost use Rattle.std.specs.Prelude.{◌≡◌, ◌≢◌, ℕ, ◌+◌, ◌*◌, ◌<◌, ◌≤◌, Bool, true, false, []};
ghost use Rattle.std.specs.Prelude.{length, All, Err, IfOk, OnOk, slice_index_or};
ghost use Rattle.ldp_heights.specs.Grid.{HeightGrid, most_places};
ghost use Rattle.ldp_zone.specs.Area.{IsNear};
ghost use Rattle.ldp_zone.specs.declared.point.Point.{Point};
ghost use Rattle.ldp_cells.specs.Cells.{centre, cells_where};
ghost use Rattle.ldp_cells.specs.Range.{HasGridHeight};
ghost use Rattle.ldp_cells.specs.Tallies.{IsTally, with_place};

use crate::cell::{Cell, Cells};
use crate::fault::CellsFault;
use ldp_heights::Heights;
use std::alloc::{AllocError, Global};
use std::marker::Model;

/// The most cells.
const MOST_CELLS: u32 = 200_000;

/// What is found in a region place by place: the cells, of which only so many are kept, their
/// number, and the number of places without a height.
#[derive(Drop)]
pub struct Tally {
    cells: Vec<Cell>,
    count: u32,
    missing: u32,
}

impl Model for Tally {
    ghost use Rattle.ldp_cells.specs.Tallies as tallies;

    ghost Value = { tallies.Tally };

    ghost view = { λ tally. record {
      cells = tally.cells.items;
      count = tally.count;
      missing = tally.missing;
    } };

    ghost invariant = { λ tally. tallies.IsKept record {
      cells = tally.cells.items;
      count = tally.count;
      missing = tally.missing;
    } };
}

impl Tally {
    /// Nothing was found yet among so many places.
    pub fn new(alloc: Global, places: u32) -> Result<Self, AllocError>
        ensures { IfOk result (λ tally. tally ≡ record { cells = []; count = 0; missing = 0 }) }
    {
        Ok(Tally {
            cells: Vec::with_capacity(alloc, places.min(MOST_CELLS) as usize)?,
            count: 0,
            missing: 0,
        })
    }

    /// Takes the marked columns of a row.
    pub fn take_row(
        &mut self,
        heights: &Heights,
        row: u32,
        marks: &[bool],
    ) -> Result<(), AllocError>
        requires row { row < heights.now.rows }
        requires each { length marks.now ≡ heights.now.cols }
        requires near { (column : ℕ) → column < heights.now.cols
            → slice_index_or marks.now column false ≡ true
            → IsNear (centre heights.now row column) }
        requires few { self.old.count + self.old.missing ≤ row * heights.now.cols }
        ensures few { OnOk result
            (self.new.count + self.new.missing ≤ (row + 1) * heights.now.cols) }
        ensures tally { OnOk result ((test : Point → Bool)
            → ((column : ℕ) → column < heights.now.cols
            → slice_index_or marks.now column false ≡ test (centre heights.now row column))
            → IsTally test heights.now (row * heights.now.cols) self.old
            → IsTally test heights.now ((row + 1) * heights.now.cols) self.new) }
    {
        for column in 0..heights.cols() {
            if marks[column as usize] {
                self.take(heights, row, column)?;
            }
        }
        Ok(())
    }

    /// Takes a place that lies in the region.
    fn take(&mut self, heights: &Heights, row: u32, col: u32) -> Result<(), AllocError>
        requires row { row < heights.now.rows }
        requires col { col < heights.now.cols }
        requires near { IsNear (centre heights.now row col) }
        requires few { self.old.count + self.old.missing < most_places }
        ensures { OnOk result (self.new ≡ with_place heights.now row col self.old) }
    {
        match heights.mm(row, col) {
            None => self.missing += 1,
            Some(mm) => {
                if self.count < MOST_CELLS {
                    let (x, y) = heights.centre(row, col);
                    self.cells.push(Cell { row, col, x, y, mm })?;
                }
                self.count += 1;
            }
        }
        Ok(())
    }

    /// The cells, where all places were gone through.
    pub fn finish(self) -> Result<Cells, CellsFault>
        ensures heights { IfOk result (λ list. All HasGridHeight list.cells) }
        ensures value { (test : Point → Bool) (grid : HeightGrid)
            → IsTally test grid (grid.cols * grid.rows) self → result ≡ cells_where test grid }
    {
        if self.count > MOST_CELLS {
            return Err(CellsFault::TooManyCells(self.count));
        }
        let Tally {
            cells,
            count: _,
            missing,
        } = self;
        Ok(Cells::new(cells, missing))
    }
}
