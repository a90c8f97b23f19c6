ghost use Rattle.std.specs.Prelude.{◌≡◌, ◌≤◌, ◌+◌, nat_lt, length};
ghost use Rattle.std.specs.Bool.{then_some};
ghost use Rattle.ldp_design.specs.Families.{AreGrids};
ghost use Rattle.ldp_design.specs.Forests.{IsWellShaped, start};
ghost use Rattle.ldp_check.specs.Entries.{first_fault};

use crate::entry::step;
use crate::reason::Reason;
use crate::stack::Stack;
use ldp_design::{Forest, Grids};
use ldp_problem::{Bounds, Pair};

/// The first fault of a forest whose first entry stands in this line, and whose leaves are to show
/// the printed cost.
pub fn first_fault<B: Bounds>(
    stack: &mut Stack,
    bounds: &mut B,
    grids: &Grids,
    forest: &Forest,
    printed: Pair,
    first: u32,
) -> Option<Reason>
    requires families { (B.problem bounds.old).families ≡ grids.now.families }
    requires forest { IsWellShaped forest.now }
    requires room { length forest.now ≤ stack.old.room }
    requires line { first ≤ 16 }
    ensures fault { result
        ≡ first_fault (B.problem bounds.old) printed first forest.now start }
    ensures grids { AreGrids grids.now.families }
    ensures room { stack.new.room ≡ stack.old.room }
    ensures same { B.problem bounds.new ≡ B.problem bounds.old }
{
    let families = grids.families();
    stack.clear();
    let mut trees = 0;
    for i in 0..forest.len() {
        let line = first + i as u32;
        let fault = step(
            &mut trees,
            stack,
            bounds,
            grids,
            printed,
            line,
            forest.get(i),
        );
        if fault.is_some() {
            return fault;
        }
    }
    missing_fault(families, trees)
}

fn missing_fault(families: u16, trees: u16) -> Option<Reason>
    ensures { result ≡ then_some (nat_lt trees families) (Reason.FamilyMissing (trees + 1)) }
{
    if trees < families {
        return Some(Reason::FamilyMissing { family: trees + 1 });
    }
    None
}
