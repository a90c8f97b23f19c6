//! What an entry does at its place, and what is wrong with it there.
ghost use Rattle.std.specs.Prelude.{◌≡◌, ◌≤◌, ◌<◌, ℕ, List, length, IfNone};
ghost use Rattle.ldp_design.specs.declared.node.Node.TheVariants as entries;
ghost use Rattle.ldp_design.specs.declared.family.Family.{Family};
ghost use Rattle.ldp_design.specs.Laws.{AllLieIn};
ghost use Rattle.ldp_design.specs.Forests.{after};
ghost use Rattle.ldp_check.specs.Entries.{fault_at, tree_fault, split_fault, box_fault};
ghost use Rattle.ldp_check.specs.Entries.{leaf_fault, unusable_fault};
ghost use Rattle.ldp_check.specs.Stacks.{place};

use crate::leaf::{leaf_fault, unusable_fault};
use crate::reason::Reason;
use crate::stack::Stack;
use ldp_design::{AxisName, Grids, Node, cut, whole};
use ldp_problem::{Bounds, Pair};

/// A tree begins, if it is that of the next family.
fn plant(
    trees: &mut u16,
    stack: &mut Stack,
    grids: &Grids,
    line: u32,
    number: u16,
) -> Option<Reason>
    requires trees { trees.old ≤ length grids.now.families }
    requires room { length stack.old.boxes < stack.old.room }
    ensures fault { result ≡ tree_fault grids.now.families line number trees.old }
    ensures next { IfNone result (place trees.new stack.new
        ≡ after grids.now.families (entries.Tree number) (place trees.old stack.old)) }
    ensures room { stack.new.room ≡ stack.old.room }
{
    if *trees == grids.families() || number != *trees + 1 {
        return Some(Reason::TreeOutOfPlace { line });
    }
    stack.push(whole(grids, number));
    *trees = number;
    None
}

/// The next box is cut, if both parts have a design.
fn split(stack: &mut Stack, line: u32, axis: AxisName, at: u32) -> Option<Reason>
    requires room { length stack.old.boxes < stack.old.room }
    ensures fault { result ≡ box_fault (split_fault line axis at) stack.old.boxes }
    ensures next { IfNone result ((families : List Family) (trees : ℕ) → place trees stack.new
        ≡ after families (entries.Split axis at) (place trees stack.old)) }
    ensures room { stack.new.room ≡ stack.old.room }
{
    let Some(b) = stack.pop() else {
        return None;
    };
    let span = b.span(axis);
    if at < span.lo || at >= span.hi {
        return Some(Reason::BadSplit { line });
    }
    let (low, high) = cut(&b, axis, at);
    stack.push(high);
    stack.push(low);
    None
}

/// The next box is closed, if that is so which the entry says of it.
fn leaf<B: Bounds>(
    stack: &mut Stack,
    bounds: &mut B,
    printed: Pair,
    line: u32,
    cell: u32,
) -> Option<Reason>
    requires boxes { AllLieIn (B.problem bounds.old).families stack.old.boxes }
    ensures fault { result
        ≡ box_fault (leaf_fault (B.problem bounds.old) printed line cell) stack.old.boxes }
    ensures next { (families : List Family) (trees : ℕ) → place trees stack.new
        ≡ after families (entries.Leaf cell) (place trees stack.old) }
    ensures room { stack.new.room ≡ stack.old.room }
    ensures same { B.problem bounds.new ≡ B.problem bounds.old }
{
    match stack.pop() {
        Some(b) => leaf_fault(bounds, &b, printed, line, cell),
        None => None,
    }
}

fn unusable<B: Bounds>(stack: &mut Stack, bounds: &mut B, line: u32, cell: u32) -> Option<Reason>
    requires boxes { AllLieIn (B.problem bounds.old).families stack.old.boxes }
    ensures fault { result
        ≡ box_fault (unusable_fault (B.problem bounds.old) line cell) stack.old.boxes }
    ensures next { (families : List Family) (trees : ℕ) → place trees stack.new
        ≡ after families (entries.Unusable cell) (place trees stack.old) }
    ensures room { stack.new.room ≡ stack.old.room }
    ensures same { B.problem bounds.new ≡ B.problem bounds.old }
{
    match stack.pop() {
        Some(b) => unusable_fault(bounds, &b, line, cell),
        None => None,
    }
}

/// An entry is judged, and the walk goes on behind it if nothing is wrong with it.
pub fn step<B: Bounds>(
    trees: &mut u16,
    stack: &mut Stack,
    bounds: &mut B,
    grids: &Grids,
    printed: Pair,
    line: u32,
    entry: Node,
) -> Option<Reason>
    requires families { (B.problem bounds.old).families ≡ grids.now.families }
    requires trees { trees.old ≤ length grids.now.families }
    requires boxes { AllLieIn (B.problem bounds.old).families stack.old.boxes }
    requires room { length stack.old.boxes < stack.old.room }
    ensures fault { result
        ≡ fault_at (B.problem bounds.old) printed line entry (place trees.old stack.old) }
    ensures next { IfNone result (place trees.new stack.new
        ≡ after grids.now.families entry (place trees.old stack.old)) }
    ensures room { stack.new.room ≡ stack.old.room }
    ensures same { B.problem bounds.new ≡ B.problem bounds.old }
{
    match entry {
        Node::Tree { family } => plant(trees, stack, grids, line, family),
        Node::Split { axis, cut } => split(stack, line, axis, cut),
        Node::Leaf { cell } => leaf(stack, bounds, printed, line, cell),
        Node::Unusable { cell } => unusable(stack, bounds, line, cell),
    }
}
