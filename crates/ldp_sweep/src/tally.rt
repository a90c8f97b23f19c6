ghost use Rattle.std.specs.Prelude.{◌≡◌, ◌≤◌, ◌<◌, ◌∷◌, [], ℕ, length, Option, None, Some};
ghost use Rattle.std.specs.Prelude.{slice_get, IfSome, IfOk, IfErr, OnOk};
ghost use Rattle.ldp_problem.specs.Costs.{beyond};
ghost use Rattle.ldp_sweep.specs.Cut.{IsCut, IsWithin, start};
ghost use Rattle.ldp_sweep.specs.Tally.{over_of, peak_of, undefined_of};
ghost use Rattle.ldp_sweep.specs.Peaks.{IsTally, IsPassed, IsFirstUndefined};

use crate::enclosure::Enclosure;
use crate::hints::{hinted, peak_at};
use crate::peak::Peak;
use crate::stretch::Stretch;
use crate::sweep::Sweep;
use crate::undefined::Undefined;

/// What is told of the values at cells: how many are above the tolerance, and the greatest with
/// the first cell that has it.
#[derive(Clone, Copy, Debug, PartialEq, Eq)]
pub struct Tally {
    /// How many values are above the tolerance.
    pub over: u32,
    /// The greatest value and the first cell that has it.
    pub peak: Peak,
}

/// What is told of the values at all cells, if all are defined. Without a tolerance none is above
/// it. The hints are cells that are looked at first: the answer is the same with any, and found
/// sooner where one of them has the greatest value.
pub fn tally_of<S: Sweep>(
    sweep: &mut S,
    hints: &[u32],
    tolerance: Option<u64>,
) -> Result<Tally, Undefined>
    requires { IsCut (S.cut sweep.old).cells (S.cut sweep.old).nodes }
    ensures over { let cut = S.cut sweep.old in
        IfOk result (λ tally. tally.over ≡ over_of cut.value tolerance cut.cells) }
    ensures peak { let cut = S.cut sweep.old in
        IfOk result (λ tally. tally.peak ≡ peak_of cut.value cut.cells) }
    ensures small { IfOk result (λ tally. tally.peak.value ≤ (S.cut sweep.old).limit) }
    ensures defined { let cut = S.cut sweep.old in
        IfOk result (λ _. undefined_of cut.value cut.cells ≡ None) }
    ensures undefined { let cut = S.cut sweep.old in
        IfErr result (λ e. undefined_of cut.value cut.cells ≡ Some e.cell) }
    ensures same { S.cut sweep.new ≡ S.cut sweep.old }
{
    let peak = hinted(sweep, hints)?;
    let mut tally = Tally { over: 0, peak };
    let mut height = sweep.nodes().len();
    while 0 < height {
        height = descend(sweep, height, tolerance, &mut tally)?;
    }
    Ok(tally)
}

/// Takes the last of so many nodes: passes over it, looks at its cells, or leaves it to its parts.
/// Answers how many nodes are left.
fn descend<S: Sweep>(
    sweep: &mut S,
    height: usize,
    tolerance: Option<u64>,
    tally: &mut Tally,
) -> Result<usize, Undefined>
    requires cut { IsCut (S.cut sweep.old).cells (S.cut sweep.old).nodes }
    requires some { 0 < height }
    requires height { height ≤ length (S.cut sweep.old).nodes }
    requires tally { let cut = S.cut sweep.old in
        IsTally cut tolerance (start cut.cells cut.nodes height) tally.old }
    ensures left { IfOk result (λ left. left < height) }
    ensures tally { let cut = S.cut sweep.old in
        IfOk result (λ left. IsTally cut tolerance (start cut.cells cut.nodes left) tally.new) }
    ensures undefined { IfErr result (λ e. IsFirstUndefined (S.cut sweep.old) e.cell) }
    ensures same { S.cut sweep.new ≡ S.cut sweep.old }
{
    let at = height - 1;
    let node = node_at(sweep, at);
    let span = sweep.span(at);
    if let Some(more) = passed(span, node, tolerance, tally.peak) {
        tally.over += more;
        return Ok(node.skip);
    }
    if node.skip < at {
        return Ok(at);
    }
    look_at(sweep, node, tolerance, tally)?;
    Ok(at)
}

fn node_at<S: Sweep>(sweep: &S, at: usize) -> Stretch
    requires { at < length (S.cut sweep.now).nodes }
    ensures { slice_get (S.cut sweep.now).nodes at ≡ Some result }
{
    sweep.nodes()[at]
}

/// How many cells of a stretch are above the tolerance, where that is known and none of them is
/// higher than the peak.
fn passed(span: Option<Enclosure>, node: Stretch, tolerance: Option<u64>, peak: Peak) -> Option<u32>
    requires { node.from ≤ node.to }
    ensures { (value : ℕ → Option ℕ) → IfSome span (IsWithin value node.from node.to)
        → IfSome result (IsPassed value tolerance node peak) }
{
    let span = span?;
    if !span.is_no_higher(node.from, peak) {
        return None;
    }
    span.over(tolerance, node.to - node.from)
}

/// Looks at each cell of a stretch.
fn look_at<S: Sweep>(
    sweep: &mut S,
    node: Stretch,
    tolerance: Option<u64>,
    tally: &mut Tally,
) -> Result<(), Undefined>
    requires ordered { node.from ≤ node.to }
    requires inside { node.to ≤ (S.cut sweep.old).cells }
    requires tally { IsTally (S.cut sweep.old) tolerance node.from tally.old }
    ensures tally { OnOk result (IsTally (S.cut sweep.old) tolerance node.to tally.new) }
    ensures undefined { IfErr result (λ e. IsFirstUndefined (S.cut sweep.old) e.cell) }
    ensures same { S.cut sweep.new ≡ S.cut sweep.old }
{
    for cell in node.from..node.to {
        let Some(peak) = peak_at(sweep, cell) else {
            return Err(Undefined { cell });
        };
        tally.over += above(tolerance, peak.value);
        tally.peak = tally.peak.or(peak);
    }
    Ok(())
}

/// One where a value is above the tolerance.
fn above(tolerance: Option<u64>, value: u128) -> u32
    ensures { result ≡ beyond tolerance (value ∷ []) }
{
    match tolerance {
        Some(limit) if u128::from(limit) < value => 1,
        _ => 0,
    }
}
