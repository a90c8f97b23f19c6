ghost use Rattle.std.specs.Prelude.{◌≡◌, ◌≤◌, ◌<◌, length, IfOk, IfSome, slice_get, Some};

use crate::Memory;
use crate::hull::push_hull;
use ldp_distortion::Prepared;
use ldp_range::Range;
use ldp_sweep::{Stretch, nodes_of};
use std::alloc::Global;

/// Cells that are cut into stretches, with the hulls of the results of the cell list over them.
#[derive(Drop)]
pub struct Stretches {
    nodes: Vec<Stretch>,
    /// Where the hull of each node begins, if it has one.
    begins: Vec<Option<usize>>,
    /// The hulls, one after another.
    ranges: Vec<Range>,
}

impl Stretches {
    ghost use Rattle.ldp_stretch.specs.Hulls.{AreStretches, HoldsRows, width_of};

    /// Cuts so many prepared cells. That a stretch has a hull is told by no clause; where it has
    /// one, the hull holds the results at each of its cells.
    pub fn new(alloc: Global, prepared: &Prepared, count: u32) -> Result<Stretches, Memory>
        requires some { 0 < count }
        requires count { length prepared.now.results ≡ count }
        ensures { IfOk result (AreStretches prepared.now) }
    {
        let nodes = nodes_of(alloc, count)?;
        let mut begins = Vec::with_capacity(alloc, nodes.len())?;
        let mut ranges = Vec::new(alloc);
        for node in &nodes {
            begins.push(push_hull(prepared, *node, &mut ranges)?)?;
        }
        Ok(Stretches {
            nodes,
            begins,
            ranges,
        })
    }

    /// The stretches, each after its parts.
    pub fn nodes(&self) -> &[Stretch]
        ensures { result.now ≡ self.now.nodes.items }
    {
        &self.nodes
    }

    /// The hull of the node at a place: a range for each result of the cell list.
    pub(crate) fn hull(&self, prepared: &Prepared, at: usize) -> Option<&[Range]>
        requires stretches { AreStretches prepared.now self.now }
        requires at { at < length self.now.nodes.items }
        ensures width { IfSome result (λ hull. length hull.now ≡ width_of prepared.now) }
        ensures holds { IfSome result (λ hull. (node : Stretch)
            → slice_get self.now.nodes.items at ≡ Some node
            → HoldsRows prepared.now.results node hull.now) }
    {
        let begin = self.begins[at]?;
        let width = prepared.lists().cell.outs().len();
        let (_, rest) = self.ranges.split_at(begin);
        let (hull, _) = rest.split_at(width);
        Some(hull)
    }
}
