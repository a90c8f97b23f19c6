ghost use Rattle.std.specs.Prelude.{◌≡◌, ◌≤◌, ◌<◌, length, take, ℕ, IfSome, IfNone};
ghost use Rattle.ldp_num.specs.Steps.{most_steps, most_inputs};
ghost use Rattle.ldp_num.specs.Number.{limit};
ghost use Rattle.ldp_design.specs.Boxes.{LiesIn};
ghost use Rattle.ldp_problem.specs.Costs.{at_cells};
ghost use Rattle.ldp_sweep.specs.Cut.{IsCut};
ghost use Rattle.ldp_bound.specs.Kept.{kept_lower, low_from, IsReady, TellsBox};
ghost use Rattle.ldp_bound.specs.Summary.{tally_of};

use crate::benches::Benches;
use crate::box_sweep::BoxSweep;
use crate::design_runs::DesignRuns;
use crate::inputs::{joined_at, put_box};
use crate::kept::Kept;
use crate::summary::Summary;
use ldp_design::{DesignBox, inputs_of};
use ldp_distortion::Prepared;
use ldp_num::{Bench, MOST_INPUTS};
use ldp_range::{Range, sharp};
use ldp_stretch::Stretched;

/// The least absolute distortion of a box at a cell, in units of 10^-15; 0 where it is undefined.
pub(crate) fn low(kept: &Kept, benches: &mut Benches, b: &DesignBox, cell: u32) -> u128
    requires lies { LiesIn kept.now.grids.families b.now }
    requires cell { cell < kept.now.count }
    ensures value { result ≡ kept_lower kept.now.grids.families kept.now.kinds b.now cell }
    ensures small { result ≤ limit }
{
    let mut inputs = [sharp(0); MOST_INPUTS];
    let Some(stretched) = begun(kept, &mut benches.runs.boxes, b, &mut inputs) else {
        return 0;
    };
    low_at(stretched.prepared(), &mut benches.ranges, &mut inputs, cell)
}

/// What is told of the least absolute distortions of a box at all cells, cell by cell. Runs the
/// design list once.
pub(crate) fn lows(kept: &Kept, benches: &mut Benches, b: &DesignBox) -> Summary
    requires lies { LiesIn kept.now.grids.families b.now }
    ensures value { result ≡ tally_of kept.now.tolerance
        (at_cells (kept_lower kept.now.grids.families kept.now.kinds b.now) kept.now.count) }
    ensures small { result.value ≤ limit }
{
    let mut inputs = [sharp(0); MOST_INPUTS];
    let Some(stretched) = begun(kept, &mut benches.runs.boxes, b, &mut inputs) else {
        return Summary::none();
    };
    told(kept, stretched.prepared(), &mut benches.ranges, &mut inputs)
}

/// The same over the stretches of the cells, with the benches back. The hints are cells that may
/// have the greatest value.
pub(crate) fn lows_by_stretches(
    kept: &Kept,
    mut benches: Benches,
    hints: &[u32],
    b: &DesignBox,
) -> (Summary, Benches)
    requires { LiesIn kept.now.grids.families b.now }
    ensures value { result.0 ≡ tally_of kept.now.tolerance
        (at_cells (kept_lower kept.now.grids.families kept.now.kinds b.now) kept.now.count) }
    ensures small { result.0.value ≤ limit }
{
    let mut inputs = [sharp(0); MOST_INPUTS];
    let Some(stretched) = begun(kept, &mut benches.runs.boxes, b, &mut inputs) else {
        return (Summary::none(), benches);
    };
    let Benches {
        runs,
        numbers,
        ranges,
        twins,
    } = benches;
    let mut sweep = BoxSweep::new(stretched, kept.count, ranges, twins, inputs);
    let told = swept(&mut sweep, hints, kept.tolerance);
    let (ranges, twins) = sweep.into_benches();
    (
        told,
        Benches {
            runs,
            numbers,
            ranges,
            twins,
        },
    )
}

fn swept(sweep: &mut BoxSweep<'_>, hints: &[u32], tolerance: Option<u64>) -> Summary
    requires { IsCut sweep.old.count sweep.old.nodes }
    ensures value { result ≡ tally_of tolerance
        (at_cells (low_from sweep.old.cells sweep.old.design) sweep.old.count) }
    ensures small { result.value ≤ limit }
{
    let Ok(told) = ldp_sweep::tally_of(sweep, hints, tolerance) else {
        // The least absolute distortion is defined at every cell.
        unreachable!();
    };
    Summary {
        over: told.over,
        value: told.peak.value,
        cell: told.peak.cell,
    }
}

/// Runs the design list of a box into the first of the joint list's inputs. None: it is undefined,
/// and so is the range of the distortion at every cell.
fn begun<'a>(
    kept: &'a Kept,
    runs: &mut DesignRuns<Range>,
    b: &DesignBox,
    inputs: &mut [Range],
) -> Option<&'a Stretched>
    requires lies { LiesIn kept.now.grids.families b.now }
    requires inputs { most_inputs ≤ length inputs.old }
    ensures none { IfNone result
        ((cell : ℕ) → kept_lower kept.now.grids.families kept.now.kinds b.now cell ≡ 0) }
    ensures tells { IfSome result
        (λ p. TellsBox kept.now.grids.families kept.now.kinds b.now p.now inputs.new) }
    ensures ready { IfSome result (λ p. IsReady kept.now.count p.now) }
{
    let cells = kept.set(b.family)?;
    let (low, high) = inputs_of(&kept.grids, b);
    if !put_box(cells, runs, &low, &high, inputs) {
        return None;
    }
    Some(cells.stretched())
}

/// The least absolute distortion at a cell, where the first of the inputs are the results of the
/// design list.
pub(crate) fn low_at(
    prepared: &Prepared,
    bench: &mut Bench<Range>,
    inputs: &mut [Range],
    cell: u32,
) -> u128
    requires ready { IsReady (length prepared.now.results) prepared.now }
    requires room { bench.old.room ≡ most_steps }
    requires inputs { most_inputs ≤ length inputs.old }
    requires cell { cell < length prepared.now.results }
    ensures value { result ≡ low_from prepared.now
        (take (length prepared.now.lists.design.outs) inputs.old) cell }
    ensures small { result ≤ limit }
    ensures kept { take (length prepared.now.lists.design.outs) inputs.new
        ≡ take (length prepared.now.lists.design.outs) inputs.old }
    ensures room { bench.new.room ≡ bench.old.room }
{
    match joined_at(prepared, bench, inputs, cell) {
        Some(range) => range.low_abs().unsigned_abs(),
        None => 0,
    }
}

/// What is told of them at all cells.
fn told(kept: &Kept, prepared: &Prepared, bench: &mut Bench<Range>, inputs: &mut [Range]) -> Summary
    requires ready { IsReady kept.now.count prepared.now }
    requires room { bench.old.room ≡ most_steps }
    requires inputs { most_inputs ≤ length inputs.old }
    ensures value { result ≡ tally_of kept.now.tolerance
        (at_cells (low_from prepared.now
        (take (length prepared.now.lists.design.outs) inputs.old)) kept.now.count) }
    ensures small { result.value ≤ limit }
    ensures room { bench.new.room ≡ bench.old.room }
{
    let mut tally = Summary::none();
    for cell in 0..kept.count {
        let low = low_at(prepared, bench, inputs, cell);
        tally = tally.with(kept.tolerance, cell, low);
    }
    tally
}
