ghost use Rattle.std.specs.Prelude.{◌≡◌, ◌≤◌, ◌<◌, length, map, take, Some, None, IfOk};
ghost use Rattle.std.specs.Prelude.{if◌then◌else◌, slice_get, [], option_map};
ghost use Rattle.std.specs.Bool.{OnTrue, OnFalse};
ghost use Rattle.ldp_num.specs.Steps.{StepFits, StepsFit, step_value, results_of, most_steps};
ghost use Rattle.ldp_num.specs.Written.{written};

use crate::Memory;
use crate::carrier::Num;
use crate::step::Step;
use std::alloc::Global;
use std::marker::Model;

/// Working places for runs of a list of steps. It takes memory once, when it is made.
#[derive(Drop)]
pub struct Bench<N: Num> {
    count: usize,
    places: Vec<N>,
}

impl<N: Num> Model for Bench<N> {
    ghost use Rattle.std.specs.Prelude.{length, take, ◌≤◌};
    ghost use Rattle.ldp_num.specs.Bench.{BenchView};

    ghost Value = { BenchView N };

    ghost view = { λ b. record {
      room = length b.places.items;
      results = take b.count b.places.items;
    } };

    ghost invariant = { λ b. b.count ≤ length b.places.items };
}

impl<N: Num> Bench<N> {
    /// A bench of this many places, with no run.
    pub fn with_room(alloc: Global, room: usize) -> Result<Bench<N>, Memory>
        requires { room ≤ most_steps }
        ensures room { IfOk result (λ b. b.room ≡ room) }
        ensures results { IfOk result (λ b. b.results ≡ []) }
    {
        let places = vec![in alloc; N::constant(0); room]?;
        Ok(Bench { count: 0, places })
    }

    /// How many steps a run may have.
    pub fn room(&self) -> usize
        ensures { result ≡ self.now.room }
    {
        self.places.len()
    }

    /// Runs the steps over the inputs: true exactly where every step is defined, also one that no
    /// result uses. `at` then reads the results. After false there is none.
    pub fn run(&mut self, steps: &[Step], inputs: &[N]) -> bool
        requires fit { StepsFit (length inputs.now) 0 steps.now }
        requires room { length steps.now ≤ self.old.room }
        ensures same_room { self.new.room ≡ self.old.room }
        ensures results { results_of (written N.CARRIER) (map N.meaning inputs.now) steps.now
            ≡ (if result then Some (map N.meaning self.new.results) else None) }
        ensures one_each { OnTrue result (length self.new.results ≡ length steps.now) }
        ensures undefined { OnFalse result (self.new.results ≡ []) }
    {
        let defined = run_into(self.places.as_mut_slice(), steps, inputs);
        self.count = if defined { steps.len() } else { 0 };
        defined
    }

    /// The result of the step at this place in the last run.
    #[inline(always)]
    pub fn at(&self, place: u16) -> N
        requires { place < length self.now.results }
        ensures { slice_get self.now.results place ≡ Some result }
    {
        self.places[place as usize]
    }
}

// Writes the result of each step to the place of its index, up to the first that is undefined.
fn run_into<N: Num>(places: &mut [N], steps: &[Step], inputs: &[N]) -> bool
    requires fit { StepsFit (length inputs.now) 0 steps.now }
    requires room { length steps.now ≤ length places.old }
    ensures results { results_of (written N.CARRIER) (map N.meaning inputs.now) steps.now
        ≡ (if result then Some (map N.meaning (take (length steps.now) places.new)) else None) }
{
    for (i, step) in steps.iter().enumerate() {
        match value_of(*step, inputs, &places[..i]) {
            Some(value) => places[i] = value,
            None => return false,
        }
    }
    true
}

#[inline(always)]
fn value_of<N: Num>(step: Step, inputs: &[N], done: &[N]) -> Option<N>
    requires { StepFits (length inputs.now) (length done.now) step }
    ensures { option_map N.meaning result
        ≡ step_value (written N.CARRIER) (map N.meaning inputs.now) (map N.meaning done.now) step }
{
    match step {
        Step::Const(v) => Some(N::constant(v)),
        Step::Input(i) => Some(inputs[i as usize]),
        Step::Add(a, b) => done[a as usize].add(done[b as usize]),
        Step::Sub(a, b) => done[a as usize].sub(done[b as usize]),
        Step::Mul(a, b) => done[a as usize].mul(done[b as usize]),
        Step::Div(a, b) => done[a as usize].div(done[b as usize]),
        Step::Sq(a) => done[a as usize].sq(),
        Step::Sqrt(a) => done[a as usize].sqrt(),
        Step::Need(a) => done[a as usize].need(),
    }
}
