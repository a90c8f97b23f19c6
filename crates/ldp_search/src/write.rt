ghost use Rattle.std.specs.Prelude.{◌≡◌, ◌+◌, ◌≤◌, [], ◌++◌, OnOk, IfOk};
ghost use Rattle.ldp_design.specs.Families.{AreGrids};
ghost use Rattle.ldp_design.specs.Boxes.{LiesIn};
ghost use Rattle.ldp_design.specs.Laws.{AllLieIn};
ghost use Rattle.ldp_problem.specs.Problem.{Problem};
ghost use Rattle.ldp_optimum.specs.Best.{least};
ghost use Rattle.ldp_optimum.specs.Forest.{forest, needed};
ghost use Rattle.ldp_search.specs.Explored.{nodes_of_all};
ghost use Rattle.ldp_search.specs.Written.{trees_of, IsOpen, Writes};

use crate::stack::Stack;
use ldp_design::{DesignBox, Forest, Grids, Node, cut, cut_for, whole};
use ldp_problem::{Bound, Bounds, Pair};
use std::alloc::{AllocError, Global};

/// The canonical forest, where the least cost is known. Each bound is asked for again.
pub fn write_forest<B: Bounds>(
    alloc: Global,
    bounds: &mut B,
    grids: &Grids,
    cost: Pair,
) -> Result<Forest, AllocError>
    requires grids { (B.problem bounds.old).families ≡ grids.now.families }
    requires least { least (B.problem bounds.old) ≡ Some cost }
    ensures forest { IfOk result (λ written. written ≡ forest (B.problem bounds.old)) }
    ensures same { B.problem bounds.new ≡ B.problem bounds.old }
    ensures asked { B.times bounds.new ≤ B.times bounds.old + needed (B.problem bounds.old) }
{
    let mut forest = Forest::new(alloc);
    let mut stack = Stack::new(alloc);
    for index in 0..grids.families() {
        let family = index + 1;
        forest.push(Node::Tree { family })?;
        stack.push(whole(grids, family))?;
        write_tree(bounds, grids, cost, &mut stack, &mut forest)?;
    }
    Ok(forest)
}

/// Writes the nodes of the boxes that are to come.
fn write_tree<B: Bounds>(
    bounds: &mut B,
    grids: &Grids,
    cost: Pair,
    stack: &mut Stack,
    forest: &mut Forest,
) -> Result<(), AllocError>
    requires grids { AreGrids grids.now.families }
    requires families { (B.problem bounds.old).families ≡ grids.now.families }
    requires least { least (B.problem bounds.old) ≡ Some cost }
    requires lies { AllLieIn grids.now.families stack.old }
    ensures trees { OnOk result
        (forest.new ≡ forest.old ++ trees_of (B.problem bounds.old) stack.old) }
    ensures empty { OnOk result (stack.new ≡ []) }
    ensures same { B.problem bounds.new ≡ B.problem bounds.old }
    ensures asked { B.times bounds.new
        ≤ B.times bounds.old + nodes_of_all (B.problem bounds.old) stack.old }
{
    while let Some(b) = stack.pop() {
        write_box(bounds, grids, cost, stack, forest, &b)?;
    }
    Ok(())
}

/// Writes the first node of a box. Where that is a split, its parts are to come next.
fn write_box<B: Bounds>(
    bounds: &mut B,
    grids: &Grids,
    cost: Pair,
    stack: &mut Stack,
    forest: &mut Forest,
    b: &DesignBox,
) -> Result<(), AllocError>
    requires grids { AreGrids grids.now.families }
    requires families { (B.problem bounds.old).families ≡ grids.now.families }
    requires least { least (B.problem bounds.old) ≡ Some cost }
    requires lies { LiesIn grids.now.families b.now }
    ensures writes { OnOk result
        (Writes (B.problem bounds.old) b.now stack.old stack.new forest.old forest.new) }
    ensures same { B.problem bounds.new ≡ B.problem bounds.old }
    ensures asked { B.times bounds.new ≤ B.times bounds.old + 1 }
{
    match bounds.bound(b) {
        Bound::Unusable { cell } => forest.push(Node::Unusable { cell }),
        Bound::Low { over, value, cell } => {
            let low = Pair {
                over,
                value: value.unsigned_abs(),
            };
            if cost < low {
                return forest.push(Node::Leaf { cell });
            }
            write_open(grids, stack, forest, b, cell)
        }
    }
}

/// Writes the first node of a box whose bound is not above the least cost.
fn write_open(
    grids: &Grids,
    stack: &mut Stack,
    forest: &mut Forest,
    b: &DesignBox,
    cell: u32,
) -> Result<(), AllocError>
    requires grids { AreGrids grids.now.families }
    requires lies { LiesIn grids.now.families b.now }
    ensures writes { OnOk result ((p : Problem) → p.families ≡ grids.now.families
        → IsOpen p b.now cell → Writes p b.now stack.old stack.new forest.old forest.new) }
{
    let Some((axis, at)) = cut_for(grids, b) else {
        return forest.push(Node::Leaf { cell });
    };
    forest.push(Node::Split { axis, cut: at })?;
    let (low, high) = cut(b, axis, at);
    stack.push(high)?;
    stack.push(low)
}
