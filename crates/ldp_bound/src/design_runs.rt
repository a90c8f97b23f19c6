ghost use Rattle.std.specs.Prelude.{◌≡◌, Some, None, IfOk, length, map, if◌then◌else◌};
ghost use Rattle.ldp_num.specs.StepList.{value_in};
ghost use Rattle.ldp_num.specs.Written.{written};
ghost use Rattle.ldp_bound.specs.Kinds.{lists_of};

use crate::Memory;
use crate::lists::lists_of;
use ldp_design::Kind;
use ldp_num::{Fix, Num};
use ldp_range::Range;
use ldp_series::CutRuns;
use std::alloc::Global;
use std::marker::Model;

/// How many inputs of a design list stand before the scale, which is its last.
const BEFORE_SCALE: u16 = 3;

/// Runs of the design list of each kind, one after another. Where all inputs but the scale are those
/// of the last run of the list, the steps that the scale bears on are run alone.
#[derive(Drop)]
pub struct DesignRuns<N: Num> {
    tm: CutRuns<N>,
    lambert: CutRuns<N>,
    lambert2: CutRuns<N>,
    hotine_north: CutRuns<N>,
    hotine_south: CutRuns<N>,
}

impl<N: Num> Model for DesignRuns<N> {
    ghost use Rattle.ldp_bound.specs.DesignRuns.{AreOfKinds};

    ghost Value = { Unit {0} };

    ghost view = { λ runs. tt };

    ghost invariant = { λ runs.
        AreOfKinds runs.tm runs.lambert runs.lambert2 runs.hotine_north runs.hotine_south };
}

impl<N: Num> DesignRuns<N> {
    /// No run yet.
    pub fn new(alloc: Global) -> Result<DesignRuns<N>, Memory> {
        Ok(DesignRuns {
            tm: runs_of(alloc, Kind::Tm, false)?,
            lambert: runs_of(alloc, Kind::Lambert, false)?,
            lambert2: runs_of(alloc, Kind::Lambert2, false)?,
            hotine_north: runs_of(alloc, Kind::Hotine, false)?,
            hotine_south: runs_of(alloc, Kind::Hotine, true)?,
        })
    }

    /// Runs the design list of a kind and writes its results: true exactly where it has a value over
    /// these inputs.
    #[tactic(auto, unfolding(crate::specs::Kinds::lists_of))]
    pub fn run_into(&mut self, kind: Kind, south: bool, inputs: &[N; 4], results: &mut [N]) -> bool
        requires inputs { (lists_of kind south).design.inputs ≡ 4 }
        requires results { length results.old ≡ length (lists_of kind south).design.outs }
        ensures value { value_in (written N.CARRIER) (lists_of kind south).design
            (map N.meaning inputs.now)
            ≡ (if result then Some (map N.meaning results.new) else None) }
    {
        match kind {
            Kind::Tm => self.tm.run_into(inputs, results),
            Kind::Lambert => self.lambert.run_into(inputs, results),
            Kind::Lambert2 => self.lambert2.run_into(inputs, results),
            Kind::Hotine => {
                if south {
                    self.hotine_south.run_into(inputs, results)
                } else {
                    self.hotine_north.run_into(inputs, results)
                }
            }
        }
    }
}

/// Runs of the design lists of designs, in numbers, and of boxes, in ranges.
#[derive(Drop)]
pub struct Runs {
    pub designs: DesignRuns<Fix>,
    pub boxes: DesignRuns<Range>,
}

impl Runs {
    /// No run yet.
    pub fn new(alloc: Global) -> Result<Runs, Memory> {
        let designs = DesignRuns::new(alloc)?;
        let boxes = DesignRuns::new(alloc)?;
        Ok(Runs { designs, boxes })
    }
}

fn runs_of<N: Num>(alloc: Global, kind: Kind, south: bool) -> Result<CutRuns<N>, Memory>
    ensures { IfOk result (λ runs. runs ≡ (lists_of kind south).design) }
{
    let lists = lists_of(alloc, kind, south)?;
    CutRuns::new(alloc, &lists.design, BEFORE_SCALE)
}
