ghost use Rattle.std.specs.Prelude.{◌≡◌, ◌+◌, ◌≤◌, [], None, OnOk, IfErr};
ghost use Rattle.ldp_design.specs.Limits.{most_budget};
ghost use Rattle.ldp_search.specs.Explored.{IsReady, IsWaiting, IsDone, IsStop};

use crate::evaluate::evaluate;
use crate::fault::SearchFault;
use crate::state::State;
use ldp_design::{DesignBox, Grids, split, whole};
use ldp_problem::Bounds;

/// Evaluates boxes until the best design is known, the whole of each family first.
pub fn explore<B: Bounds>(
    bounds: &mut B,
    grids: &Grids,
    state: &mut State,
    budget: u32,
) -> Result<(), SearchFault>
    requires grids { (B.problem bounds.old).families ≡ grids.now.families }
    requires fresh { state.old ≡ record { frontier = []; best = None; evaluated = 0 } }
    requires few { budget ≤ most_budget }
    ensures done { OnOk result (IsDone (B.problem bounds.old) state.new) }
    ensures fault { IfErr result (IsStop (B.problem bounds.old) budget) }
    ensures within { state.new.evaluated ≤ budget }
    ensures same { B.problem bounds.new ≡ B.problem bounds.old }
    ensures asked { B.times bounds.new ≤ B.times bounds.old + state.new.evaluated }
{
    begin_all(bounds, grids, state, budget)?;
    close_all(bounds, grids, state, budget)
}

/// Evaluates the whole of each family.
fn begin_all<B: Bounds>(
    bounds: &mut B,
    grids: &Grids,
    state: &mut State,
    budget: u32,
) -> Result<(), SearchFault>
    requires grids { (B.problem bounds.old).families ≡ grids.now.families }
    requires fresh { state.old ≡ record { frontier = []; best = None; evaluated = 0 } }
    requires few { budget ≤ most_budget }
    ensures next { OnOk result (IsWaiting (B.problem bounds.old) state.new) }
    ensures fault { IfErr result (IsStop (B.problem bounds.old) budget) }
    ensures within { state.new.evaluated ≤ budget }
    ensures same { B.problem bounds.new ≡ B.problem bounds.old }
    ensures asked { B.times bounds.new ≤ B.times bounds.old + state.new.evaluated }
{
    for index in 0..grids.families() {
        evaluate(bounds, state, budget, &whole(grids, index + 1))?;
    }
    Ok(())
}

/// Splits boxes, the one of smallest bound first, until the best design is known.
fn close_all<B: Bounds>(
    bounds: &mut B,
    grids: &Grids,
    state: &mut State,
    budget: u32,
) -> Result<(), SearchFault>
    requires grids { (B.problem bounds.old).families ≡ grids.now.families }
    requires waiting { IsWaiting (B.problem bounds.old) state.old }
    requires few { budget ≤ most_budget }
    requires within { state.old.evaluated ≤ budget }
    ensures done { OnOk result (IsDone (B.problem bounds.old) state.new) }
    ensures fault { IfErr result (IsStop (B.problem bounds.old) budget) }
    ensures within { state.new.evaluated ≤ budget }
    ensures same { B.problem bounds.new ≡ B.problem bounds.old }
    ensures asked { B.times bounds.new + state.old.evaluated
        ≤ B.times bounds.old + state.new.evaluated }
{
    while let Some(b) = state.choose() {
        split_box(bounds, grids, state, budget, &b)?;
    }
    Ok(())
}

/// Splits a box, and evaluates both parts.
fn split_box<B: Bounds>(
    bounds: &mut B,
    grids: &Grids,
    state: &mut State,
    budget: u32,
    b: &DesignBox,
) -> Result<(), SearchFault>
    requires grids { (B.problem bounds.old).families ≡ grids.now.families }
    requires ready { IsReady (B.problem bounds.old) b.now state.old }
    requires few { budget ≤ most_budget }
    requires within { state.old.evaluated ≤ budget }
    ensures next { OnOk result (IsWaiting (B.problem bounds.old) state.new) }
    ensures fault { IfErr result (IsStop (B.problem bounds.old) budget) }
    ensures counted { OnOk result (state.new.evaluated ≡ state.old.evaluated + 2) }
    ensures within { state.new.evaluated ≤ budget }
    ensures same { B.problem bounds.new ≡ B.problem bounds.old }
    ensures asked { B.times bounds.new + state.old.evaluated
        ≤ B.times bounds.old + state.new.evaluated }
{
    if let Some((low, high)) = split(grids, b) {
        evaluate(bounds, state, budget, &low)?;
        evaluate(bounds, state, budget, &high)?;
    }
    Ok(())
}
