ghost use Rattle.std.specs.Prelude.{◌<◌, IfOk, OnOk};
ghost use Rattle.ldp_sweep.specs.Cut.{IsCut};
ghost use Rattle.ldp_sweep.specs.Grown.{IsGrownFrom};

use crate::Memory;
use crate::stretch::Stretch;
use std::alloc::Global;

/// The most cells of a stretch that has no parts.
const MOST_CELLS: u32 = 8;

/// Nodes over so many cells. A stretch of more than eight cells is cut into four parts at most, all
/// of one length but the first, which may be shorter. No clause tells how cells are cut.
pub fn nodes_of(alloc: Global, cells: u32) -> Result<Vec<Stretch>, Memory>
    requires { 0 < cells }
    ensures { IfOk result (λ nodes. IsCut cells nodes.items) }
{
    let mut nodes = Vec::new(alloc);
    grow(&mut nodes, 0, cells)?;
    Ok(nodes)
}

/// Adds the parts of a stretch, the last first, and then its node.
fn grow(nodes: &mut Vec<Stretch>, from: u32, to: u32) -> Result<(), Memory>
    requires { from < to }
    ensures { OnOk result (IsGrownFrom nodes.old.items nodes.new.items from to) }
{
    let skip = nodes.len();
    let node = Stretch { from, to, skip };
    if to - from <= MOST_CELLS {
        nodes.push(node)?;
        return Ok(());
    }
    let part = (to - from) / 4 + 1;
    let mut end = to;
    while from < end {
        let begin = from.max(end.saturating_sub(part));
        grow(nodes, begin, end)?;
        end = begin;
    }
    nodes.push(node)?;
    Ok(())
}
