ghost use Rattle.std.specs.Prelude.{◌≡◌, ◌+◌, ◌<◌, ◌≤◌, length, take, All, IfOk, OnErr};
ghost use Rattle.ldp_num.specs.Number.{IsNumber};
ghost use Rattle.ldp_num.specs.Steps.{StepFits, StepsFit, most_steps, most_inputs, most_results};
ghost use Rattle.ldp_series.specs.Draft.{Draft, HasRoom, Appends};
ghost use Rattle.ldp_series.specs.Formula.{step, whole};
ghost use Rattle.ldp_series.specs.StepList.{started, finished};

use crate::Memory;
use crate::list::List;
use ldp_num::{MOST_STEPS, ONE, Step};
use std::alloc::Global;
use std::marker::Model;

/// A list under construction: the number of its inputs, and its steps so far.
#[derive(Drop)]
pub struct Build {
    inputs: u16,
    steps: Vec<Step>,
}

impl Model for Build {
    ghost Value = { Draft };

    ghost view = { λ b. record { inputs = b.inputs; steps = b.steps.items } };

    ghost invariant = { λ b. (length b.steps.items ≤ most_steps)
        × StepsFit b.inputs 0 b.steps.items × (b.inputs ≤ most_inputs) };
}

impl Build {
    /// A list that begins with one step for each input, in order, so that the inputs are the places
    /// below `inputs`.
    #[tactic(auto, using(crate::proofs::Fits::fits_push))]
    pub fn new(alloc: Global, inputs: u16) -> Result<Build, Memory>
        requires few { inputs ≤ most_inputs }
        ensures ok { IfOk result (λ build. build ≡ started inputs) }
        ensures inputs { IfOk result (λ build. build.inputs ≡ inputs) }
        ensures count { IfOk result (λ build. length build.steps ≡ inputs) }
    {
        let mut steps = Vec::new(alloc);
        for i in 0..inputs {
            steps.push(Step::Input(i))?;
        }
        Ok(Build { inputs, steps })
    }

    /// How many steps there is room for.
    pub fn room(&self) -> usize
        ensures { result + length self.now.steps ≡ most_steps }
    {
        MOST_STEPS - self.steps.len()
    }

    #[tactic(auto, using(crate::proofs::Fits::fits_push))]
    fn push(&mut self, next: Step) -> Result<u16, Memory>
        requires fits { StepFits self.old.inputs (length self.old.steps) next }
        requires room { HasRoom 1 self.old }
        ensures ok { IfOk result (Appends (step next) 1 self.old self.new) }
        ensures err { OnErr result (self.new ≡ self.old) }
    {
        let place = self.steps.len() as u16;
        self.steps.push(next)?;
        Ok(place)
    }

    /// Appends a constant, in units of 10^-15. Like every call that appends, it answers the place
    /// of its result.
    pub fn constant(&mut self, v: i128) -> Result<u16, Memory>
        requires number { IsNumber v }
        requires room { HasRoom 1 self.old }
        ensures ok { IfOk result (Appends (step (Step.Const v)) 1 self.old self.new) }
        ensures err { OnErr result (self.new ≡ self.old) }
    {
        self.push(Step::Const(v))
    }

    /// Appends a whole number, and answers its place.
    pub fn whole(&mut self, v: u16) -> Result<u16, Memory>
        requires number { v ≤ 10000 }
        requires room { HasRoom 1 self.old }
        ensures ok { IfOk result (Appends (whole v) 1 self.old self.new) }
        ensures err { OnErr result (self.new ≡ self.old) }
    {
        let place = self.push(Step::Const(v as i128 * ONE))?;
        Ok(place)
    }

    /// Appends the sum of the results at two places, and answers its place.
    pub fn add(&mut self, a: u16, b: u16) -> Result<u16, Memory>
        requires left { a < length self.old.steps }
        requires right { b < length self.old.steps }
        requires room { HasRoom 1 self.old }
        ensures ok { IfOk result (Appends (step (Step.Add a b)) 1 self.old self.new) }
        ensures err { OnErr result (self.new ≡ self.old) }
    {
        self.push(Step::Add(a, b))
    }

    /// Appends the difference, and answers its place.
    pub fn sub(&mut self, a: u16, b: u16) -> Result<u16, Memory>
        requires left { a < length self.old.steps }
        requires right { b < length self.old.steps }
        requires room { HasRoom 1 self.old }
        ensures ok { IfOk result (Appends (step (Step.Sub a b)) 1 self.old self.new) }
        ensures err { OnErr result (self.new ≡ self.old) }
    {
        self.push(Step::Sub(a, b))
    }

    /// Appends the product, and answers its place.
    pub fn mul(&mut self, a: u16, b: u16) -> Result<u16, Memory>
        requires left { a < length self.old.steps }
        requires right { b < length self.old.steps }
        requires room { HasRoom 1 self.old }
        ensures ok { IfOk result (Appends (step (Step.Mul a b)) 1 self.old self.new) }
        ensures err { OnErr result (self.new ≡ self.old) }
    {
        self.push(Step::Mul(a, b))
    }

    /// Appends the quotient, and answers its place. A list has no value where its divisor is not
    /// above 0.
    pub fn div(&mut self, a: u16, b: u16) -> Result<u16, Memory>
        requires left { a < length self.old.steps }
        requires right { b < length self.old.steps }
        requires room { HasRoom 1 self.old }
        ensures ok { IfOk result (Appends (step (Step.Div a b)) 1 self.old self.new) }
        ensures err { OnErr result (self.new ≡ self.old) }
    {
        self.push(Step::Div(a, b))
    }

    /// Appends the square, and answers its place.
    pub fn sq(&mut self, a: u16) -> Result<u16, Memory>
        requires place { a < length self.old.steps }
        requires room { HasRoom 1 self.old }
        ensures ok { IfOk result (Appends (step (Step.Sq a)) 1 self.old self.new) }
        ensures err { OnErr result (self.new ≡ self.old) }
    {
        self.push(Step::Sq(a))
    }

    /// Appends the square root, and answers its place.
    pub fn sqrt(&mut self, a: u16) -> Result<u16, Memory>
        requires place { a < length self.old.steps }
        requires room { HasRoom 1 self.old }
        ensures ok { IfOk result (Appends (step (Step.Sqrt a)) 1 self.old self.new) }
        ensures err { OnErr result (self.new ≡ self.old) }
    {
        self.push(Step::Sqrt(a))
    }

    /// Appends the same value again, and answers its place. The list has no value where it is below
    /// 0: so a formula states its domain.
    pub fn need(&mut self, a: u16) -> Result<u16, Memory>
        requires place { a < length self.old.steps }
        requires room { HasRoom 1 self.old }
        ensures ok { IfOk result (Appends (step (Step.Need a)) 1 self.old self.new) }
        ensures err { OnErr result (self.new ≡ self.old) }
    {
        self.push(Step::Need(a))
    }

    /// The list with its results at these places. The build is spent also where the answer is
    /// `Memory`.
    pub fn finish(self, outs: &[u16]) -> Result<List, Memory>
        requires placed { All (λ place. place < length self.steps) outs.now }
        requires few { length outs.now ≤ most_results }
        ensures { IfOk result (λ list. list ≡ finished (self, outs.now)) }
    {
        let Build { inputs, steps } = self;
        let outs = outs.to_vec(*steps.allocator())?;
        Ok(List::new(inputs, steps, outs))
    }

    /// Hands on what was made, and drops the steps from `start` on where that is `Memory`.
    pub(crate) fn or_cut(&mut self, start: usize, made: Result<u16, Memory>) -> Result<u16, Memory>
        requires { start ≤ length self.old.steps }
        ensures same { result ≡ made }
        ensures ok { IfOk made (λ _. self.new ≡ self.old) }
        ensures err { OnErr made
            (self.new ≡ record self.old { steps = take start self.old.steps }) }
    {
        match made {
            Ok(place) => Ok(place),
            Err(memory) => {
                self.cut(start);
                Err(memory)
            }
        }
    }

    /// How many steps there are.
    pub(crate) fn count(&self) -> usize
        ensures { result ≡ length self.now.steps }
    {
        self.steps.len()
    }

    /// Drops the steps from this place on.
    #[tactic(auto, using(crate::proofs::Fits::fits_take))]
    fn cut(&mut self, place: usize)
        requires { place ≤ length self.old.steps }
        ensures { self.new ≡ record self.old { steps = take place self.old.steps } }
    {
        self.steps.truncate(place);
    }
}
