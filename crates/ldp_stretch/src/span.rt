ghost use Rattle.std.specs.Prelude.{◌≡◌, ◌≤◌, ◌<◌, ◌+◌, ◌++◌, length, take, map, option_map};
ghost use Rattle.std.specs.Prelude.{IfSome};
ghost use Rattle.ldp_num.specs.Written.{twin_ops};
ghost use Rattle.ldp_num.specs.StepList.{value_in, first_result};
ghost use Rattle.ldp_distortion.specs.Prepared.{HasRoom};
ghost use Rattle.ldp_stretch.specs.Hulls.{AreStretches, width_of};
ghost use Rattle.ldp_stretch.specs.Spans.{SpansAt};
ghost use Rattle.ldp_stretch.specs.Twins.{hull_twins};

use crate::stretches::Stretches;
use crate::twins::put_hull;
use ldp_distortion::Prepared;
use ldp_num::Bench;
use ldp_range::{Range, Twin};
use ldp_sweep::Enclosure;

/// Bounds of the least absolute distortion at each cell of the node at a place, in units of 10^-15,
/// where the first of the inputs are twins of the results of the design list; these stay. None:
/// it is not known that the distortion is defined at each.
pub(crate) fn span_at(
    prepared: &Prepared,
    stretches: &Stretches,
    bench: &mut Bench<Twin>,
    inputs: &mut [Twin],
    at: usize,
) -> Option<Enclosure>
    requires stretches { AreStretches prepared.now stretches.now }
    requires room { HasRoom prepared.now.lists bench.old.room }
    requires inputs { prepared.now.lists.joint.inputs ≤ length inputs.old }
    requires at { at < length stretches.now.nodes.items }
    ensures spans { IfSome result (SpansAt prepared.now
        (take (length prepared.now.lists.design.outs) inputs.old) stretches.now.nodes.items at) }
    ensures kept { take (length prepared.now.lists.design.outs) inputs.new
        ≡ take (length prepared.now.lists.design.outs) inputs.old }
    ensures room { bench.new.room ≡ bench.old.room }
{
    let hull = stretches.hull(prepared, at)?;
    let twin = twin_over(prepared, hull, bench, inputs)?;
    Some(Enclosure {
        low: twin.fewest().unsigned_abs(),
        high: twin.most().unsigned_abs(),
    })
}

/// The twin of the distortion over a hull, where the first of the inputs are twins of the results
/// of the design list; these stay.
fn twin_over(
    prepared: &Prepared,
    hull: &[Range],
    bench: &mut Bench<Twin>,
    inputs: &mut [Twin],
) -> Option<Twin>
    requires hull { length hull.now ≡ width_of prepared.now }
    requires room { HasRoom prepared.now.lists bench.old.room }
    requires inputs { prepared.now.lists.joint.inputs ≤ length inputs.old }
    ensures value { result ≡ first_result (value_in twin_ops prepared.now.lists.joint
        (take (length prepared.now.lists.design.outs) inputs.old ++ hull_twins hull.now)) }
    ensures kept { take (length prepared.now.lists.design.outs) inputs.new
        ≡ take (length prepared.now.lists.design.outs) inputs.old }
    ensures room { bench.new.room ≡ bench.old.room }
{
    let count = prepared.lists().joint.inputs() as usize;
    joined(prepared, hull, bench, &mut inputs[..count])
}

/// The same from the inputs of the joint list alone.
fn joined(
    prepared: &Prepared,
    hull: &[Range],
    bench: &mut Bench<Twin>,
    inputs: &mut [Twin],
) -> Option<Twin>
    requires hull { length hull.now ≡ width_of prepared.now }
    requires room { HasRoom prepared.now.lists bench.old.room }
    requires inputs { length inputs.old
        ≡ length prepared.now.lists.design.outs + width_of prepared.now }
    ensures value { result ≡ first_result (value_in twin_ops prepared.now.lists.joint
        (take (length prepared.now.lists.design.outs) inputs.old ++ hull_twins hull.now)) }
    ensures kept { take (length prepared.now.lists.design.outs) inputs.new
        ≡ take (length prepared.now.lists.design.outs) inputs.old }
    ensures room { bench.new.room ≡ bench.old.room }
{
    let lists = prepared.lists();
    let (_, of_cell) = inputs.split_at_mut(lists.design.outs().len());
    put_hull(hull, of_cell);
    lists.joint.run_first(bench, inputs)
}
