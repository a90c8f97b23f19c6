ghost use Rattle.std.specs.Prelude.{◌≡◌, ◌+◌, ◌≤◌, ℕ, List, ◌∷◌, OnOk, IfErr};
ghost use Rattle.ldp_design.specs.declared.design_box.DesignBox.{DesignBox};
ghost use Rattle.ldp_design.specs.Boxes.{LiesIn};
ghost use Rattle.ldp_design.specs.Limits.{most_budget};
ghost use Rattle.ldp_search.specs.Explored.{Advances, IsExplored, IsStop};

use crate::fault::SearchFault;
use crate::state::State;
use ldp_design::DesignBox;
use ldp_problem::Bounds;

/// Evaluates a box.
pub fn evaluate<B: Bounds>(
    bounds: &mut B,
    state: &mut State,
    budget: u32,
    b: &DesignBox,
) -> Result<(), SearchFault>
    requires lies { LiesIn (B.problem bounds.old).families b.now }
    requires few { budget ≤ most_budget }
    requires within { state.old.evaluated ≤ budget }
    ensures next { OnOk result (Advances (B.problem bounds.old) b.now state.old state.new) }
    ensures fault { IfErr result (λ e. (begun : ℕ) (pending : List DesignBox)
        → IsExplored (B.problem bounds.old) begun (b.now ∷ pending) state.old
        → IsStop (B.problem bounds.old) budget e) }
    ensures counted { OnOk result (state.new.evaluated ≡ state.old.evaluated + 1) }
    ensures within { state.new.evaluated ≤ budget }
    ensures same { B.problem bounds.new ≡ B.problem bounds.old }
    ensures asked { B.times bounds.new + state.old.evaluated
        ≤ B.times bounds.old + state.new.evaluated }
{
    if state.evaluated == budget {
        return Err(SearchFault::Budget { evaluated: budget });
    }
    let bound = bounds.bound(b);
    state.take(b, bound)?;
    Ok(())
}
