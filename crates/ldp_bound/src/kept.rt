ghost use Rattle.std.specs.Prelude.{◌≡◌, ◌≤◌, ◌<◌, length, IfOk, IfSome, option_map};
ghost use Rattle.std.specs.Prelude.{option_and_then};
ghost use Rattle.ldp_design.specs.Families.{AreGrids, family_of};
ghost use Rattle.ldp_problem.specs.Problem.{IsSound};
ghost use Rattle.ldp_bound.specs.Kept.{kinds_of, family_set, kept_problem, HasCells, IsReady};

use crate::Memory;
use crate::kind_cells::KindCells;
use crate::kinds::PreparedKinds;
use ldp_cells::Cells;
use ldp_design::Grids;
use std::alloc::Global;

/// What stays the same while designs and boxes are asked for: the families, the cells prepared for
/// their lists, the number of cells, and the tolerance in units of 10^-15.
#[derive(Drop)]
pub struct Kept {
    pub grids: Grids,
    pub kinds: PreparedKinds,
    pub count: u32,
    pub tolerance: Option<u64>,
    ghost full: { HasCells count kinds },
    ghost sound: { IsSound (kept_problem grids.families kinds count tolerance) },
}

impl Kept {
    /// Copies the families, and prepares the cells for the kinds that they have.
    pub fn new(
        alloc: Global,
        grids: &Grids,
        cells: &Cells,
        tolerance: Option<u64>,
    ) -> Result<Kept, Memory>
        requires { 0 < length cells.now.cells }
        ensures grids { IfOk result (λ kept. kept.grids.families ≡ grids.now.families) }
        ensures kinds { IfOk result (λ kept. kept.kinds ≡ kinds_of grids.now.families cells.now.cells) }
        ensures count { IfOk result (λ kept. kept.count ≡ length cells.now.cells) }
        ensures tolerance { IfOk result (λ kept. kept.tolerance ≡ tolerance) }
    {
        let kinds = PreparedKinds::new(alloc, grids, cells)?;
        let grids = copied(alloc, grids)?;
        let count = cells.len();
        Ok(Kept {
            grids,
            kinds,
            count,
            tolerance,
        })
    }

    /// The cells prepared for the lists of the family with this number, cut into stretches.
    pub fn set(&self, number: u16) -> Option<&KindCells>
        requires some { 1 ≤ number }
        requires known { number ≤ length self.now.grids.families }
        ensures set { option_map (λ p. p.now) result
            ≡ option_and_then (family_set self.now.kinds) (family_of self.now.grids.families number) }
        ensures ready { IfSome result (λ p. IsReady self.now.count p.now) }
    {
        let cells = self.kinds.of(self.grids.family(number))?;
        // Called for its clause: a list has no more inputs than the most.
        let _inputs = cells.prepared().lists().joint.inputs();
        Some(cells)
    }
}

/// The same families once more.
fn copied(alloc: Global, grids: &Grids) -> Result<Grids, Memory>
    ensures same { IfOk result (λ copy. copy.families ≡ grids.now.families) }
    ensures valid { AreGrids grids.now.families }
{
    let mut copy = Grids::new(alloc);
    for index in 0..grids.families() {
        copy.push(*grids.family(index + 1))?;
    }
    Ok(copy)
}
