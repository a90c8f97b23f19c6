ghost use Rattle.std.specs.Prelude.{◌≡◌, ◌+◌, ◌*◌, ◌≤◌, ℕ, IfOk, IfErr, Err, false};
ghost use Rattle.std.specs.Ordering.{is_lt};
ghost use Rattle.ldp_design.specs.declared.design.Design.{Design};
ghost use Rattle.ldp_design.specs.Designs.{IsAdmitted, design_cmp};
ghost use Rattle.ldp_design.specs.Forests.{IsWellShaped};
ghost use Rattle.ldp_design.specs.Limits.{most_budget};
ghost use Rattle.ldp_problem.specs.Pairs.{AtMost};
ghost use Rattle.ldp_problem.specs.Costs.{IsUsable, cost};
ghost use Rattle.ldp_search.specs.Search.{IsFound, HasCost, IsFault, most_asked};

use crate::candidate::Candidate;
use crate::explore::explore;
use crate::fault::SearchFault;
use crate::found::Found;
use crate::state::State;
use crate::write::write_forest;
use ldp_design::{Forest, Grids};
use ldp_problem::Bounds;
use std::alloc::Global;

/// The first design of least cost, and the canonical forest that shows it. The budget is how many
/// boxes may be evaluated. A tolerance of the bounder counts in the cost.
pub fn search<B: Bounds>(
    alloc: Global,
    bounds: &mut B,
    grids: &Grids,
    budget: u32,
) -> Result<Found, SearchFault>
    requires grids { (B.problem bounds.old).families ≡ grids.now.families }
    requires few { budget ≤ most_budget }

    // What is found is the best design and the canonical forest.
    ensures found { IfOk result (IsFound (B.problem bounds.old) budget) }
    ensures fault { IfErr result (IsFault (B.problem bounds.old) budget) }

    // In a reader's words: the design is admissible and usable and has this cost, no usable
    // admissible design has a smaller one, and of the same cost none comes earlier.
    ensures admitted { IfOk result (λ f. IsAdmitted grids.now.families f.design) }
    ensures usable { IfOk result (λ f. IsUsable (B.problem bounds.old) f.design) }
    ensures cost { IfOk result (HasCost (B.problem bounds.old)) }
    ensures smallest { IfOk result (λ f. (d : Design) → IsAdmitted grids.now.families d
        → IsUsable (B.problem bounds.old) d
        → AtMost (cost (B.problem bounds.old) f.design) (cost (B.problem bounds.old) d)) }
    ensures first { IfOk result (λ f. (d : Design) → IsAdmitted grids.now.families d
        → IsUsable (B.problem bounds.old) d
        → cost (B.problem bounds.old) d ≡ cost (B.problem bounds.old) f.design
        → is_lt (design_cmp d f.design) ≡ false) }
    ensures none { (nodes : ℕ) (d : Design) → result ≡ Err (SearchFault.NoUsable nodes)
        → IsAdmitted grids.now.families d → IsUsable (B.problem bounds.old) d → ⊥ }
    ensures shape { IfOk result (λ f. IsWellShaped f.forest) }

    ensures same { B.problem bounds.new ≡ B.problem bounds.old }
    ensures asked { B.times bounds.new ≤ B.times bounds.old + most_asked budget result }
{
    let mut state = State::new(alloc);
    explore(bounds, grids, &mut state, budget)?;
    let nodes = state.evaluated;
    let Some(best) = state.best else {
        return Err(SearchFault::NoUsable { nodes });
    };
    let forest = write_forest(alloc, bounds, grids, best.cost())?;
    Ok(found(best, forest, nodes))
}

fn found(best: Candidate, forest: Forest, nodes: u32) -> Found
    ensures { result ≡ record {
      design = best.design;
      over = best.over;
      worst = best.worst;
      cell = best.cell;
      forest = forest;
      nodes = nodes;
    } }
{
    Found {
        design: best.design,
        over: best.over,
        worst: best.worst,
        cell: best.cell,
        forest,
        nodes,
    }
}
