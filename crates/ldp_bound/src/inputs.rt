ghost use Rattle.std.specs.Prelude.{◌≡◌, ◌<◌, ◌≤◌, ◌≤ℤ◌, length, map, take, Some, None, option_map};
ghost use Rattle.std.specs.Prelude.{if◌then◌else◌};
ghost use Rattle.ldp_num.specs.Number.{IsNumber};
ghost use Rattle.ldp_num.specs.StepList.{value, value_in};
ghost use Rattle.ldp_num.specs.Written.{written, range_ops};
ghost use Rattle.ldp_distortion.specs.Inputs.{numbers};
ghost use Rattle.ldp_distortion.specs.Prepared.{HasRoom, joined_at};
ghost use Rattle.ldp_design.specs.Laws.{AreNumbers, AreOrdered};
ghost use Rattle.ldp_bound.specs.Plain.{number_inputs, pair_inputs};

use crate::design_runs::DesignRuns;
use crate::kind_cells::KindCells;
use ldp_design::Inputs4;
use ldp_distortion::Prepared;
use ldp_num::{Bench, Fix, Num};
use ldp_range::{Range, hull, sharp};

/// Runs the design list of a design into the first of the joint list's inputs: true exactly where
/// it has a value.
pub(crate) fn put_design(
    cells: &KindCells,
    runs: &mut DesignRuns<Fix>,
    at: &Inputs4,
    inputs: &mut [Fix],
) -> bool
    requires numbers { AreNumbers at.now }
    requires inputs { cells.now.lists.joint.inputs ≤ length inputs.old }
    ensures value { value cells.now.lists.design (number_inputs at.now)
        ≡ (if result
        then Some (numbers (take (length cells.now.lists.design.outs) inputs.new))
        else None) }
{
    put_results(cells, runs, &number_inputs(at), inputs)
}

/// Runs the design list of a box, whose inputs lie between two, into the first of the joint list's
/// inputs: true exactly where it has a value.
pub(crate) fn put_box(
    cells: &KindCells,
    runs: &mut DesignRuns<Range>,
    low: &Inputs4,
    high: &Inputs4,
    inputs: &mut [Range],
) -> bool
    requires low { AreNumbers low.now }
    requires high { AreNumbers high.now }
    requires ordered { AreOrdered low.now high.now }
    requires inputs { cells.now.lists.joint.inputs ≤ length inputs.old }
    ensures value { value_in range_ops cells.now.lists.design (pair_inputs low.now high.now)
        ≡ (if result
        then Some (take (length cells.now.lists.design.outs) inputs.new)
        else None) }
{
    put_results(cells, runs, &pair_inputs(low, high), inputs)
}

/// The same in any carrier.
fn put_results<N: Num>(
    cells: &KindCells,
    runs: &mut DesignRuns<N>,
    design: &[N; 4],
    inputs: &mut [N],
) -> bool
    requires inputs { cells.now.lists.joint.inputs ≤ length inputs.old }
    ensures value { value_in (written N.CARRIER) cells.now.lists.design
        (map N.meaning design.now)
        ≡ (if result
        then Some (map N.meaning (take (length cells.now.lists.design.outs) inputs.new))
        else None) }
{
    let list = &cells.prepared().lists().design;
    let (first, _) = inputs.split_at_mut(list.outs().len());
    let (kind, south) = cells.kind();
    runs.run_into(kind, south, design, first)
}

/// The distortion at a cell in any carrier, where the first of the joint list's inputs are the
/// results of the design list; these stay.
pub(crate) fn joined_at<N: Num>(
    prepared: &Prepared,
    bench: &mut Bench<N>,
    inputs: &mut [N],
    cell: u32,
) -> Option<N>
    requires room { HasRoom prepared.now.lists bench.old.room }
    requires inputs { prepared.now.lists.joint.inputs ≤ length inputs.old }
    requires cell { cell < length prepared.now.results }
    ensures distortion { option_map N.meaning result ≡ joined_at (written N.CARRIER) prepared.now
        (map N.meaning (take (length prepared.now.lists.design.outs) inputs.old)) cell }
    ensures kept { take (length prepared.now.lists.design.outs) inputs.new
        ≡ take (length prepared.now.lists.design.outs) inputs.old }
    ensures room { bench.new.room ≡ bench.old.room }
{
    let count = prepared.lists().joint.inputs() as usize;
    prepared.joined_at(bench, &mut inputs[..count], cell)
}

fn number_inputs(at: &Inputs4) -> [Fix; 4]
    requires { AreNumbers at.now }
    ensures { numbers result ≡ number_inputs at.now }
{
    [
        Fix { n: at.lat },
        Fix { n: at.lon },
        Fix { n: at.azimuth },
        Fix { n: at.scale },
    ]
}

fn pair_inputs(low: &Inputs4, high: &Inputs4) -> [Range; 4]
    requires low { AreNumbers low.now }
    requires high { AreNumbers high.now }
    requires ordered { AreOrdered low.now high.now }
    ensures { result ≡ pair_inputs low.now high.now }
{
    [
        span(low.lat, high.lat),
        span(low.lon, high.lon),
        span(low.azimuth, high.azimuth),
        span(low.scale, high.scale),
    ]
}

/// The range from one number to another.
fn span(low: i128, high: i128) -> Range
    requires low { IsNumber low }
    requires high { IsNumber high }
    requires ordered { low ≤ℤ high }
    ensures { result ≡ (low, high) }
{
    hull(sharp(low), sharp(high))
}
