ghost use Rattle.std.specs.Prelude.{◌≡◌, ◌≤◌, Some, IfOk, IfSome, slice_get};
ghost use Rattle.std.specs.Bool.{OnTrue};
ghost use Rattle.ldp_series.specs.Cut.{IsCut, AreParts, StillParts, Puts, IsMoved, AreMoved, no_parts};
ghost use Rattle.ldp_series.specs.Cut.{with_head, with_tail};

use crate::Memory;
use crate::list::List;
use ldp_num::{MOST_INPUTS, MOST_RESULTS, MOST_STEPS, Step};
use std::alloc::Global;
use std::marker::Model;

/// A list cut in two: the head runs over the inputs that stay, the tail over all inputs and then the
/// head's results.
#[derive(Drop)]
pub(crate) struct Cut {
    pub head: List,
    pub tail: List,
}

impl Cut {
    /// Cuts a list for runs in which the first inputs, so many, mostly stay: none where a part would
    /// have more inputs, results or steps than a list may have.
    pub fn new(alloc: Global, list: &List, stays: u16) -> Result<Option<Cut>, Memory>
        requires { stays ≤ list.now.inputs }
        ensures { IfOk result (λ made. IfSome made
            (λ cut. IsCut stays list.now cut.head cut.tail)) }
    {
        let Some(mut halves) = halves_of(alloc, list, stays)? else {
            return Ok(None);
        };
        if !halves.keep_all(list.outs())? {
            return Ok(None);
        }
        let Some(outs) = moved_outs(alloc, &halves.in_tail, list.outs())? else {
            return Ok(None);
        };
        Ok(halves.finish(list, stays, outs))
    }
}

/// Both parts in the making, and where each step of the list stands in the head, and in the tail.
#[derive(Drop)]
struct Halves {
    inputs: u16,
    head: Vec<Step>,
    kept: Vec<u16>,
    tail: Vec<Step>,
    in_head: Vec<Option<usize>>,
    in_tail: Vec<Option<usize>>,
}

impl Model for Halves {
    ghost use Rattle.ldp_series.specs.Cut.{Parts};

    ghost Value = { Parts };

    ghost view = { λ h. record {
      inputs = h.inputs;
      head = h.head.items;
      kept = h.kept.items;
      tail = h.tail.items;
      in_head = h.in_head.items;
      in_tail = h.in_tail.items;
    } };
}

impl Halves {
    fn new(alloc: Global, inputs: u16) -> Halves
        ensures { result ≡ no_parts inputs }
    {
        Halves {
            inputs,
            head: Vec::new(alloc),
            kept: Vec::new(alloc),
            tail: Vec::new(alloc),
            in_head: Vec::new(alloc),
            in_tail: Vec::new(alloc),
        }
    }

    fn put_head(&mut self, step: Step) -> Result<(), Memory>
        ensures { IfOk result (λ _. self.new ≡ with_head self.old step) }
    {
        self.in_head.push(Some(self.head.len()))?;
        self.in_tail.push(None)?;
        self.head.push(step)?;
        Ok(())
    }

    fn put_tail(&mut self, step: Step) -> Result<(), Memory>
        ensures { IfOk result (λ _. self.new ≡ with_tail self.old step) }
    {
        self.in_head.push(None)?;
        self.in_tail.push(Some(self.tail.len()))?;
        self.tail.push(step)?;
        Ok(())
    }

    // Lets the tail take the result of the step at this place, where it stands in the head alone:
    // false where it stands nowhere.
    fn keep(&mut self, place: u16) -> Result<bool, Memory>
        ensures { IfOk result (λ _. StillParts self.old self.new) }
    {
        if stands(&self.in_tail, place).is_some() {
            return Ok(true);
        }
        let Some(at) = stands(&self.in_head, place) else {
            return Ok(false);
        };
        let Ok(input) = u16::try_from(self.inputs as usize + self.kept.len()) else {
            return Ok(false);
        };
        if self.in_tail.len() <= place as usize {
            return Ok(false);
        }
        self.in_tail[place as usize] = Some(self.tail.len());
        self.tail.push(Step::Input(input))?;
        self.kept.push(at)?;
        Ok(true)
    }

    // The same for the operands of a step.
    #[tactic(auto, using(crate::proofs::Moves::still_same, crate::proofs::Moves::still_then))]
    fn keep_operands(&mut self, step: Step) -> Result<bool, Memory>
        ensures { IfOk result (λ _. StillParts self.old self.new) }
    {
        match step {
            Step::Const(_) | Step::Input(_) => Ok(true),
            Step::Add(a, b) | Step::Sub(a, b) | Step::Mul(a, b) | Step::Div(a, b) => {
                if !self.keep(a)? {
                    return Ok(false);
                }
                self.keep(b)
            }
            Step::Sq(a) | Step::Sqrt(a) | Step::Need(a) => self.keep(a),
        }
    }

    // The same for all places of results.
    #[tactic(auto, using(crate::proofs::Moves::still_same, crate::proofs::Moves::still_then))]
    fn keep_all(&mut self, places: &[u16]) -> Result<bool, Memory>
        ensures { IfOk result (λ _. StillParts self.old self.new) }
    {
        for place in places {
            if !self.keep(*place)? {
                return Ok(false);
            }
        }
        Ok(true)
    }

    // One more step of the list, in the head where it can stand there: false where it can stand in
    // neither.
    fn put(&mut self, step: Step, stays: u16) -> Result<bool, Memory>
        ensures { IfOk result (λ put. OnTrue put (Puts stays step self.old self.new)) }
    {
        if let Some(there) = moved(step, &self.in_head, stays) {
            self.put_head(there)?;
            return Ok(true);
        }
        if !self.keep_operands(step)? {
            return Ok(false);
        }
        let Some(there) = moved(step, &self.in_tail, self.inputs) else {
            return Ok(false);
        };
        self.put_tail(there)?;
        Ok(true)
    }

    // Both parts as lists, where they are within the limits of lists.
    fn finish(self, list: &List, stays: u16, outs: Vec<u16>) -> Option<Cut>
        requires stays { stays ≤ list.now.inputs }
        requires parts { AreParts stays list.now.steps self }
        requires inputs { self.inputs ≡ list.now.inputs }
        requires outs { AreMoved self.in_tail list.now.outs outs.items }
        ensures { IfSome result (λ cut. IsCut stays list.now cut.head cut.tail) }
    {
        let Halves {
            head,
            kept,
            tail,
            ..
        } = self;
        let count = list.inputs() as usize + kept.len();
        if kept.len() > MOST_RESULTS || outs.len() > MOST_RESULTS || count > MOST_INPUTS {
            return None;
        }
        if head.len() > MOST_STEPS || tail.len() > MOST_STEPS {
            return None;
        }
        let head = List::new(stays, head, kept);
        let tail = List::new(count as u16, tail, outs);
        Some(Cut { head, tail })
    }
}

// Each step of the list in the head or in the tail: none where one can stand in neither.
fn halves_of(alloc: Global, list: &List, stays: u16) -> Result<Option<Halves>, Memory>
    ensures { IfOk result (λ made. IfSome made
        (λ h. AreParts stays list.now.steps h × (h.inputs ≡ list.now.inputs))) }
{
    let mut halves = Halves::new(alloc, list.inputs());
    for step in list.steps() {
        if !halves.put(*step, stays)? {
            return Ok(None);
        }
    }
    Ok(Some(halves))
}

// The places where the steps at these places stand: none where one stands nowhere.
fn moved_outs(
    alloc: Global,
    places: &[Option<usize>],
    outs: &[u16],
) -> Result<Option<Vec<u16>>, Memory>
    ensures { IfOk result (λ made. IfSome made
        (λ moved. AreMoved places.now outs.now moved.items)) }
{
    let mut moved = Vec::new(alloc);
    for out in outs {
        let Some(at) = stands(places, *out) else {
            return Ok(None);
        };
        moved.push(at)?;
    }
    Ok(Some(moved))
}

// The same step over the places where its operands stand: none where one stands nowhere, and where
// the step takes an input behind the first, so many.
fn moved(step: Step, places: &[Option<usize>], inputs: u16) -> Option<Step>
    ensures { IfSome result (IsMoved inputs places.now step) }
{
    match step {
        Step::Const(v) => Some(Step::Const(v)),
        Step::Input(i) => {
            if i < inputs {
                Some(Step::Input(i))
            } else {
                None
            }
        }
        Step::Add(a, b) => Some(Step::Add(stands(places, a)?, stands(places, b)?)),
        Step::Sub(a, b) => Some(Step::Sub(stands(places, a)?, stands(places, b)?)),
        Step::Mul(a, b) => Some(Step::Mul(stands(places, a)?, stands(places, b)?)),
        Step::Div(a, b) => Some(Step::Div(stands(places, a)?, stands(places, b)?)),
        Step::Sq(a) => Some(Step::Sq(stands(places, a)?)),
        Step::Sqrt(a) => Some(Step::Sqrt(stands(places, a)?)),
        Step::Need(a) => Some(Step::Need(stands(places, a)?)),
    }
}

fn stands(places: &[Option<usize>], place: u16) -> Option<u16>
    ensures { IfSome result (λ at. slice_get places.now place ≡ Some (Some at)) }
{
    let at = (*places.get(place as usize)?)?;
    u16::try_from(at).ok()
}
