ghost use Rattle.std.specs.Prelude.{◌≡◌, ◌<◌, length, take, IfSome};
ghost use Rattle.ldp_num.specs.Steps.{most_steps};
ghost use Rattle.ldp_sweep.specs.Cut.{IsCut};
ghost use Rattle.ldp_stretch.specs.Spans.{SpansAt};
ghost use Rattle.ldp_stretch.specs.Twins.{range_twins, number_twins, StandForRanges};

use crate::span::span_at;
use crate::stretched::Stretched;
use crate::stretches::Stretches;
use crate::twins::{put_numbers, put_ranges};
use ldp_distortion::Prepared;
use ldp_num::{Bench, Fix, MOST_INPUTS, Num};
use ldp_range::{Range, Twin};
use ldp_sweep::{Enclosure, Stretch};
use std::marker::Model;

/// The spans of the least absolute distortion of one box or one design over stretches of cells,
/// seen as the prepared cells, the stretches, and twins of the results of the design list.
#[derive(Drop)]
pub struct TwinSpans<'a> {
    prepared: &'a Prepared,
    stretches: &'a Stretches,
    bench: Bench<Twin>,
    inputs: [Twin; MOST_INPUTS],
}

impl<'a> Model for TwinSpans<'a> {
    ghost use Rattle.std.specs.Prelude.{length, take};
    ghost use Rattle.ldp_stretch.specs.Spans.{SpansView, AreSpans};

    ghost Value = { SpansView };

    ghost view = { λ s. record {
      cells = s.prepared.now;
      nodes = s.stretches.now.nodes.items;
      twins = take (length s.prepared.now.lists.design.outs) s.inputs;
    } };

    ghost invariant = { λ s.
        AreSpans s.prepared.now s.stretches.now s.bench.room (length s.inputs) };
}

impl<'a> TwinSpans<'a> {
    /// Of the box for which the design list gives these ranges.
    pub fn of_box(stretched: &'a Stretched, bench: Bench<Twin>, ranges: &[Range]) -> TwinSpans<'a>
        requires room { bench.room ≡ most_steps }
        requires ranges { length ranges.now ≡ length stretched.now.lists.design.outs }
        ensures cells { result.cells ≡ stretched.now }
        ensures cut { IsCut (length stretched.now.results) result.nodes }
        ensures twins { result.twins ≡ range_twins ranges.now }
        ensures stand { StandForRanges ranges.now result.twins }
    {
        let mut inputs = [Twin::constant(0); MOST_INPUTS];
        let results = stretched.prepared().lists().design.outs().len();
        put_ranges(ranges, &mut inputs[..results]);
        TwinSpans::over(stretched, bench, inputs)
    }

    /// Of the design for which the design list gives these numbers.
    pub fn of_design(stretched: &'a Stretched, bench: Bench<Twin>, numbers: &[Fix]) -> TwinSpans<'a>
        requires room { bench.room ≡ most_steps }
        requires numbers { length numbers.now ≡ length stretched.now.lists.design.outs }
        ensures cells { result.cells ≡ stretched.now }
        ensures cut { IsCut (length stretched.now.results) result.nodes }
        ensures twins { result.twins ≡ number_twins numbers.now }
    {
        let mut inputs = [Twin::constant(0); MOST_INPUTS];
        let results = stretched.prepared().lists().design.outs().len();
        put_numbers(numbers, &mut inputs[..results]);
        TwinSpans::over(stretched, bench, inputs)
    }

    fn over(
        stretched: &'a Stretched,
        bench: Bench<Twin>,
        inputs: [Twin; MOST_INPUTS],
    ) -> TwinSpans<'a>
        requires { bench.room ≡ most_steps }
        ensures cells { result.cells ≡ stretched.now }
        ensures cut { IsCut (length stretched.now.results) result.nodes }
        ensures twins { result.twins ≡ take (length stretched.now.lists.design.outs) inputs }
    {
        let prepared = stretched.prepared();
        // Called for its clause: no list has more inputs.
        let _inputs = prepared.lists().joint.inputs();
        TwinSpans {
            prepared,
            stretches: stretched.stretches(),
            bench,
            inputs,
        }
    }

    /// The prepared cells.
    pub fn prepared(&self) -> &Prepared
        ensures { result.now ≡ self.now.cells }
    {
        self.prepared
    }

    /// The stretches into which they are cut, each after its parts.
    pub fn nodes(&self) -> &[Stretch]
        ensures { result.now ≡ self.now.nodes }
    {
        self.stretches.nodes()
    }

    /// Bounds of the least absolute distortion at each cell of the node at a place, in units of
    /// 10^-15. None: it is not known that the distortion is defined at each. How near the bounds
    /// are, and where they are known, is told by no clause: whoever asks has the same answer with
    /// any.
    pub fn span(&mut self, at: usize) -> Option<Enclosure>
        requires { at < length self.old.nodes }
        ensures spans { IfSome result (SpansAt self.old.cells self.old.twins self.old.nodes at) }
        ensures same { self.new ≡ self.old }
    {
        span_at(
            self.prepared,
            self.stretches,
            &mut self.bench,
            &mut self.inputs,
            at,
        )
    }

    /// The bench back.
    pub fn into_bench(self) -> Bench<Twin>
        ensures { result.room ≡ most_steps }
    {
        let TwinSpans { bench, .. } = self;
        bench
    }
}
