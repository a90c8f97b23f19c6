ghost use Rattle.std.specs.Prelude.{◌≡◌, ◌≤◌, ◌<◌, length, All, IfOk};
ghost use Rattle.ldp_num.specs.Steps.{StepsFit, most_steps, most_inputs, most_results};
ghost use Rattle.ldp_series.specs.StepList.{StepList, IsWellFormed};

use crate::Memory;
use ldp_num::Step;
use std::alloc::Global;
use std::marker::Model;

/// A finished list: its steps, the places of its results, and the number of its inputs.
#[derive(Drop)]
pub struct List {
    inputs: u16,
    steps: Vec<Step>,
    outs: Vec<u16>,
}

impl Model for List {
    ghost Value = { StepList };

    ghost view = { λ list.
        record { steps = list.steps.items; outs = list.outs.items; inputs = list.inputs } };

    ghost invariant = { λ list. IsWellFormed
        (record { steps = list.steps.items; outs = list.outs.items; inputs = list.inputs }) };
}

impl List {
    pub(crate) fn new(inputs: u16, steps: Vec<Step>, outs: Vec<u16>) -> List
        requires { IsWellFormed
            (record { steps = steps.items; outs = outs.items; inputs = inputs }) }
        ensures { result ≡ record { steps = steps.items; outs = outs.items; inputs = inputs } }
    {
        List {
            inputs,
            steps,
            outs,
        }
    }

    /// The same list once more.
    pub(crate) fn copied(&self, alloc: Global) -> Result<List, Memory>
        ensures { IfOk result (λ copy. copy ≡ self.now) }
    {
        let steps = self.steps.to_vec(alloc)?;
        let outs = self.outs.to_vec(alloc)?;
        Ok(List::new(self.inputs, steps, outs))
    }

    /// The steps, in order.
    pub fn steps(&self) -> &[Step]
        ensures steps { result.now ≡ self.now.steps }
        ensures fit { StepsFit self.now.inputs 0 self.now.steps }
        ensures small { length self.now.steps ≤ most_steps }
    {
        &self.steps
    }

    /// The places of the results, in order.
    pub fn outs(&self) -> &[u16]
        ensures outs { result.now ≡ self.now.outs }
        ensures few { length self.now.outs ≤ most_results }
        ensures placed { All (λ place. place < length self.now.steps) self.now.outs }
    {
        &self.outs
    }

    /// The number of inputs.
    pub fn inputs(&self) -> u16
        ensures inputs { result ≡ self.now.inputs }
        ensures few { self.now.inputs ≤ most_inputs }
    {
        self.inputs
    }
}

/// The lists of a projection.
///
/// The cell list takes latitude, longitude and height of a cell; the design list takes latitude,
/// longitude, azimuth and scale factor of a design; the joint list takes the results of the design
/// list and then those of the cell list, and its result is the linear distortion.
#[derive(Drop)]
pub struct Lists {
    pub cell: List,
    pub design: List,
    pub joint: List,
}
