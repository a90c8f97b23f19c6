ghost use Rattle.std.specs.Prelude.{◌≡◌, ◌≤◌, length, IfOk, IfSome, OnOk};
ghost use Rattle.ldp_stretch.specs.Hulls.{IsHull, IsLonger, width_of};

use crate::Memory;
use crate::column::column;
use ldp_distortion::Prepared;
use ldp_range::Range;
use ldp_sweep::Stretch;

/// Adds the hull of a node, and answers where it begins. None: the results of the cell list are
/// undefined at one of its cells, or it has no cell.
pub(crate) fn push_hull(
    prepared: &Prepared,
    node: Stretch,
    ranges: &mut Vec<Range>,
) -> Result<Option<usize>, Memory>
    requires { node.to ≤ length prepared.now.results }
    ensures longer { OnOk result (IsLonger ranges.old.items ranges.new.items) }
    ensures hull { IfOk result (λ begin. IfSome begin
        (IsHull prepared.now.results (width_of prepared.now) ranges.new.items node)) }
{
    let begin = ranges.len();
    let width = prepared.lists().cell.outs().len();
    if node.to <= node.from || width == 0 {
        return Ok(None);
    }
    for place in 0..width {
        let Some(range) = column(prepared, node.from, node.to, place) else {
            return Ok(None);
        };
        ranges.push(range)?;
    }
    Ok(Some(begin))
}
