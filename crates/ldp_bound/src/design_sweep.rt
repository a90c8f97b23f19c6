ghost use Rattle.std.specs.Prelude.{◌≡◌, ◌≤◌, length};

use crate::sizes::size_at;
use ldp_num::{Bench, Fix, MOST_INPUTS};
use ldp_range::Twin;
use ldp_stretch::{Stretched, TwinSpans};
use ldp_sweep::{Enclosure, Stretch, Sweep};
use std::marker::Model;

/// The absolute distortion of a design at the cells and over their stretches.
#[derive(Drop)]
pub struct DesignSweep<'a> {
    spans: TwinSpans<'a>,
    count: u32,
    bench: Bench<Fix>,
    inputs: [Fix; MOST_INPUTS],
}

impl<'a> Model for DesignSweep<'a> {
    ghost use Rattle.std.specs.Prelude.{◌≡◌, length};
    ghost use Rattle.ldp_num.specs.declared.fix.Fix.{Fix};
    ghost use Rattle.ldp_stretch.specs.Twins.{number_twins};
    ghost use Rattle.ldp_bound.specs.Sweeps.{Swept, IsSweep, front};

    ghost Value = { Swept Fix };

    ghost view = { λ s. record {
      cells = s.spans.cells;
      count = s.count;
      nodes = s.spans.nodes;
      design = front s.spans.cells s.inputs;
    } };

    ghost invariant = { λ s.
        IsSweep s.spans.cells s.count s.bench.room (length s.inputs)
        × (s.spans.twins ≡ number_twins (front s.spans.cells s.inputs)) };
}

impl<'a> DesignSweep<'a> {
    ghost use Rattle.ldp_num.specs.Steps.{most_steps};
    ghost use Rattle.ldp_sweep.specs.Cut.{IsCut};
    ghost use Rattle.ldp_bound.specs.Kept.{IsReady};
    ghost use Rattle.ldp_bound.specs.Sweeps.{front};

    /// Of the design for which the first of the inputs are the results of the design list.
    pub fn new(
        stretched: &'a Stretched,
        count: u32,
        numbers: Bench<Fix>,
        twins: Bench<Twin>,
        inputs: [Fix; MOST_INPUTS],
    ) -> DesignSweep<'a>
        requires ready { IsReady count stretched.now }
        requires numbers { numbers.room ≡ most_steps }
        requires twins { twins.room ≡ most_steps }
        ensures cells { result.cells ≡ stretched.now }
        ensures count { result.count ≡ count }
        ensures cut { IsCut result.count result.nodes }
        ensures design { result.design ≡ front stretched.now inputs }
    {
        let results = stretched.prepared().lists().design.outs().len();
        DesignSweep {
            spans: TwinSpans::of_design(stretched, twins, &inputs[..results]),
            count,
            bench: numbers,
            inputs,
        }
    }

    /// The benches back.
    pub fn into_benches(self) -> (Bench<Fix>, Bench<Twin>)
        ensures numbers { result.0.room ≡ most_steps }
        ensures twins { result.1.room ≡ most_steps }
    {
        let DesignSweep { spans, bench, .. } = self;
        (bench, spans.into_bench())
    }
}

impl<'a> Sweep for DesignSweep<'a> {
    ghost use Rattle.ldp_bound.specs.Sweeps.{design_cut};

    ghost cut = { design_cut };

    fn cells(&self) -> u32 {
        self.count
    }

    fn nodes(&self) -> &[Stretch] {
        self.spans.nodes()
    }

    fn value(&mut self, cell: u32) -> Option<u128> {
        let prepared = self.spans.prepared();
        size_at(prepared, &mut self.bench, &mut self.inputs, cell)
    }

    fn span(&mut self, at: usize) -> Option<Enclosure> {
        self.spans.span(at)
    }
}
