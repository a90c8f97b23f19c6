ghost use Rattle.std.specs.Prelude.{◌≡◌, ◌≤◌, ◌<◌, length, take, ℕ, None, IfSome, IfNone};
ghost use Rattle.ldp_num.specs.Steps.{most_steps, most_inputs};
ghost use Rattle.ldp_num.specs.Number.{limit};
ghost use Rattle.ldp_distortion.specs.Inputs.{numbers};
ghost use Rattle.ldp_design.specs.Designs.{IsAdmitted};
ghost use Rattle.ldp_sweep.specs.Cut.{IsCut};
ghost use Rattle.ldp_bound.specs.Plain.{HasNumber};
ghost use Rattle.ldp_bound.specs.Kept.{kept_delta, size_from, IsReady, TellsDesign};
ghost use Rattle.ldp_bound.specs.Summary.{cost_over};

use crate::benches::Benches;
use crate::design_runs::DesignRuns;
use crate::design_sweep::DesignSweep;
use crate::inputs::{joined_at, put_design};
use crate::kept::Kept;
use crate::summary::Summary;
use ldp_design::{Design, inputs_at};
use ldp_distortion::Prepared;
use ldp_num::{Bench, Fix, MOST_INPUTS};
use ldp_problem::Cost;
use ldp_stretch::Stretched;

/// The absolute distortion of a design at a cell, in units of 10^-15.
pub(crate) fn size(kept: &Kept, benches: &mut Benches, d: &Design, cell: u32) -> Option<u128>
    requires admitted { IsAdmitted kept.now.grids.families d.now }
    requires cell { cell < kept.now.count }
    ensures { result ≡ kept_delta kept.now.grids.families kept.now.kinds d.now cell }
{
    let mut inputs = [Fix { n: 0 }; MOST_INPUTS];
    let stretched = begun(kept, &mut benches.runs.designs, d, &mut inputs)?;
    size_at(
        stretched.prepared(),
        &mut benches.numbers,
        &mut inputs,
        cell,
    )
}

/// The cost of a design over all cells, cell by cell. Runs the design list once.
pub(crate) fn cost(kept: &Kept, benches: &mut Benches, d: &Design) -> Cost
    requires { IsAdmitted kept.now.grids.families d.now }
    ensures value { result ≡ cost_over kept.now.tolerance
        (kept_delta kept.now.grids.families kept.now.kinds d.now) kept.now.count }
    ensures number { HasNumber result }
{
    let mut inputs = [Fix { n: 0 }; MOST_INPUTS];
    let Some(stretched) = begun(kept, &mut benches.runs.designs, d, &mut inputs) else {
        return Cost::Unusable { cell: 0 };
    };
    told(
        kept,
        stretched.prepared(),
        &mut benches.numbers,
        &mut inputs,
    )
}

/// The same over the stretches of the cells, with the benches back. The hints are cells that may
/// have the greatest value.
pub(crate) fn cost_by_stretches(
    kept: &Kept,
    mut benches: Benches,
    hints: &[u32],
    d: &Design,
) -> (Cost, Benches)
    requires { IsAdmitted kept.now.grids.families d.now }
    ensures value { result.0 ≡ cost_over kept.now.tolerance
        (kept_delta kept.now.grids.families kept.now.kinds d.now) kept.now.count }
    ensures number { HasNumber result.0 }
{
    let mut inputs = [Fix { n: 0 }; MOST_INPUTS];
    let Some(stretched) = begun(kept, &mut benches.runs.designs, d, &mut inputs) else {
        return (Cost::Unusable { cell: 0 }, benches);
    };
    let Benches {
        runs,
        numbers,
        ranges,
        twins,
    } = benches;
    let mut sweep = DesignSweep::new(stretched, kept.count, numbers, twins, inputs);
    let told = swept(&mut sweep, hints, kept.tolerance);
    let (numbers, twins) = sweep.into_benches();
    (
        told,
        Benches {
            runs,
            numbers,
            ranges,
            twins,
        },
    )
}

fn swept(sweep: &mut DesignSweep<'_>, hints: &[u32], tolerance: Option<u64>) -> Cost
    requires { IsCut sweep.old.count sweep.old.nodes }
    ensures value { result ≡ cost_over tolerance
        (size_from sweep.old.cells (numbers sweep.old.design)) sweep.old.count }
    ensures number { HasNumber result }
{
    match ldp_sweep::tally_of(sweep, hints, tolerance) {
        Ok(told) => Summary {
            over: told.over,
            value: told.peak.value,
            cell: told.peak.cell,
        }
        .cost(),
        Err(undefined) => Cost::Unusable {
            cell: undefined.cell,
        },
    }
}

/// Runs the design list of a design into the first of the joint list's inputs. None: it is
/// undefined, and so is the distortion at every cell.
fn begun<'a>(
    kept: &'a Kept,
    runs: &mut DesignRuns<Fix>,
    d: &Design,
    inputs: &mut [Fix],
) -> Option<&'a Stretched>
    requires admitted { IsAdmitted kept.now.grids.families d.now }
    requires inputs { most_inputs ≤ length inputs.old }
    ensures none { IfNone result
        ((cell : ℕ) → kept_delta kept.now.grids.families kept.now.kinds d.now cell ≡ None) }
    ensures tells { IfSome result
        (λ p. TellsDesign kept.now.grids.families kept.now.kinds d.now p.now inputs.new) }
    ensures ready { IfSome result (λ p. IsReady kept.now.count p.now) }
{
    let cells = kept.set(d.family)?;
    let at = inputs_at(&kept.grids, d);
    if !put_design(cells, runs, &at, inputs) {
        return None;
    }
    Some(cells.stretched())
}

/// The absolute distortion at a cell, where the first of the inputs are the results of the design
/// list.
pub(crate) fn size_at(
    prepared: &Prepared,
    bench: &mut Bench<Fix>,
    inputs: &mut [Fix],
    cell: u32,
) -> Option<u128>
    requires ready { IsReady (length prepared.now.results) prepared.now }
    requires room { bench.old.room ≡ most_steps }
    requires inputs { most_inputs ≤ length inputs.old }
    requires cell { cell < length prepared.now.results }
    ensures value { result ≡ size_from prepared.now
        (numbers (take (length prepared.now.lists.design.outs) inputs.old)) cell }
    ensures small { IfSome result (λ size. size ≤ limit) }
    ensures kept { take (length prepared.now.lists.design.outs) inputs.new
        ≡ take (length prepared.now.lists.design.outs) inputs.old }
    ensures room { bench.new.room ≡ bench.old.room }
{
    match joined_at(prepared, bench, inputs, cell) {
        Some(distortion) => Some(distortion.n.unsigned_abs()),
        None => None,
    }
}

/// The cost from the absolute distortions at all cells.
fn told(kept: &Kept, prepared: &Prepared, bench: &mut Bench<Fix>, inputs: &mut [Fix]) -> Cost
    requires ready { IsReady kept.now.count prepared.now }
    requires room { bench.old.room ≡ most_steps }
    requires inputs { most_inputs ≤ length inputs.old }
    ensures value { result ≡ cost_over kept.now.tolerance
        (size_from prepared.now (numbers (take (length prepared.now.lists.design.outs) inputs.old)))
        kept.now.count }
    ensures number { HasNumber result }
    ensures room { bench.new.room ≡ bench.old.room }
{
    let mut tally = Summary::none();
    for cell in 0..kept.count {
        let Some(size) = size_at(prepared, bench, inputs, cell) else {
            return Cost::Unusable { cell };
        };
        tally = tally.with(kept.tolerance, cell, size);
    }
    tally.cost()
}
