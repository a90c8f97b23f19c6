ghost use Rattle.std.specs.Prelude.{◌≡◌, ◌≤◌, length};

use crate::lows::low_at;
use ldp_num::{Bench, MOST_INPUTS};
use ldp_range::{Range, Twin};
use ldp_stretch::{Stretched, TwinSpans};
use ldp_sweep::{Enclosure, Stretch, Sweep};
use std::marker::Model;

/// The least absolute distortion of a box at the cells and over their stretches.
#[derive(Drop)]
pub struct BoxSweep<'a> {
    spans: TwinSpans<'a>,
    count: u32,
    bench: Bench<Range>,
    inputs: [Range; MOST_INPUTS],
}

impl<'a> Model for BoxSweep<'a> {
    ghost use Rattle.std.specs.Prelude.{ℤ, length};
    ghost use Rattle.ldp_stretch.specs.Twins.{StandForRanges};
    ghost use Rattle.ldp_bound.specs.Sweeps.{Swept, IsSweep, front};

    ghost Value = { Swept (ℤ × ℤ) };

    ghost view = { λ s. record {
      cells = s.spans.cells;
      count = s.count;
      nodes = s.spans.nodes;
      design = front s.spans.cells s.inputs;
    } };

    ghost invariant = { λ s.
        IsSweep s.spans.cells s.count s.bench.room (length s.inputs)
        × StandForRanges (front s.spans.cells s.inputs) s.spans.twins };
}

impl<'a> BoxSweep<'a> {
    ghost use Rattle.ldp_num.specs.Steps.{most_steps};
    ghost use Rattle.ldp_sweep.specs.Cut.{IsCut};
    ghost use Rattle.ldp_bound.specs.Kept.{IsReady};
    ghost use Rattle.ldp_bound.specs.Sweeps.{front};

    /// Of the box for which the first of the inputs are the results of the design list.
    pub fn new(
        stretched: &'a Stretched,
        count: u32,
        ranges: Bench<Range>,
        twins: Bench<Twin>,
        inputs: [Range; MOST_INPUTS],
    ) -> BoxSweep<'a>
        requires ready { IsReady count stretched.now }
        requires ranges { ranges.room ≡ most_steps }
        requires twins { twins.room ≡ most_steps }
        ensures cells { result.cells ≡ stretched.now }
        ensures count { result.count ≡ count }
        ensures cut { IsCut result.count result.nodes }
        ensures design { result.design ≡ front stretched.now inputs }
    {
        let results = stretched.prepared().lists().design.outs().len();
        BoxSweep {
            spans: TwinSpans::of_box(stretched, twins, &inputs[..results]),
            count,
            bench: ranges,
            inputs,
        }
    }

    /// The benches back.
    pub fn into_benches(self) -> (Bench<Range>, Bench<Twin>)
        ensures ranges { result.0.room ≡ most_steps }
        ensures twins { result.1.room ≡ most_steps }
    {
        let BoxSweep { spans, bench, .. } = self;
        (bench, spans.into_bench())
    }
}

impl<'a> Sweep for BoxSweep<'a> {
    ghost use Rattle.ldp_bound.specs.Sweeps.{box_cut};

    ghost cut = { box_cut };

    fn cells(&self) -> u32 {
        self.count
    }

    fn nodes(&self) -> &[Stretch] {
        self.spans.nodes()
    }

    fn value(&mut self, cell: u32) -> Option<u128> {
        let prepared = self.spans.prepared();
        Some(low_at(prepared, &mut self.bench, &mut self.inputs, cell))
    }

    fn span(&mut self, at: usize) -> Option<Enclosure> {
        self.spans.span(at)
    }
}
