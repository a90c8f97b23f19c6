ghost use Rattle.std.specs.Prelude.{◌≡◌, ◌≤◌, ◌+◌, Some, None, IfOk, length, map, take, drop};
ghost use Rattle.std.specs.Prelude.{if◌then◌else◌};
ghost use Rattle.std.specs.Bool.{OnTrue, OnFalse};
ghost use Rattle.ldp_num.specs.Steps.{most_steps};
ghost use Rattle.ldp_num.specs.Written.{written};
ghost use Rattle.ldp_num.specs.StepList.{value_in};
ghost use Rattle.ldp_series.specs.CutRuns.{HasHead, IsReady};

use crate::Memory;
use crate::cut::Cut;
use crate::list::List;
use ldp_num::{Bench, Num};
use std::alloc::Global;
use std::marker::Model;

/// Runs of a list, one after another. Where the first inputs, so many, mean the same as in the run
/// before, the steps on which nothing else bears keep their results. Seen as the list.
#[derive(Drop)]
pub struct CutRuns<N: Num> {
    list: List,
    cut: Option<Cut>,
    bench: Bench<N>,
    places: Vec<N>,
    ran: bool,
}

impl<N: Num> Model for CutRuns<N> {
    ghost use Rattle.std.specs.Prelude.{map};
    ghost use Rattle.ldp_series.specs.StepList.{StepList};
    ghost use Rattle.ldp_series.specs.CutRuns.{AreReady};

    ghost Value = { StepList };

    ghost view = { λ r. r.list };

    ghost invariant = { λ r.
        AreReady N.CARRIER r.list r.cut r.ran (map N.meaning r.places.items) r.bench.room };
}

impl<N: Num> CutRuns<N> {
    /// Ready for runs of this list in which the first inputs, so many, mostly stay. A list whose
    /// parts are beyond the limits of lists is run whole each time.
    pub fn new(alloc: Global, list: &List, stays: u16) -> Result<CutRuns<N>, Memory>
        requires { stays ≤ list.now.inputs }
        ensures { IfOk result (λ runs. runs ≡ list.now) }
    {
        let copy = list.copied(alloc)?;
        let Some(cut) = Cut::new(alloc, list, stays)? else {
            let bench = Bench::with_room(alloc, list.steps().len())?;
            return Ok(CutRuns {
                list: copy,
                cut: None,
                bench,
                places: Vec::new(alloc),
                ran: false,
            });
        };
        let room = cut.head.steps().len().max(cut.tail.steps().len());
        let bench = Bench::with_room(alloc, room)?;
        let places = vec![in alloc; N::constant(0); cut.tail.inputs() as usize]?;
        Ok(CutRuns {
            list: copy,
            cut: Some(cut),
            bench,
            places,
            ran: false,
        })
    }

    /// Runs the list and writes its results: true exactly where it has a value over these inputs.
    pub fn run_into(&mut self, inputs: &[N], results: &mut [N]) -> bool
        requires inputs { length inputs.now ≡ self.old.inputs }
        requires results { length results.old ≡ length self.old.outs }
        ensures value { value_in (written N.CARRIER) self.old (map N.meaning inputs.now)
            ≡ (if result then Some (map N.meaning results.new) else None) }
        ensures list { self.new ≡ self.old }
    {
        let Some(cut) = &self.cut else {
            return self.list.run_into(&mut self.bench, inputs, results);
        };
        self.ran = put_inputs(
            &cut.head,
            &mut self.bench,
            self.ran,
            inputs,
            &mut self.places,
        );
        if !self.ran {
            return false;
        }
        cut.tail.run_into(&mut self.bench, &self.places, results)
    }
}

// Writes the inputs, and behind them the results of the head, which is run where the inputs that it
// takes have changed: true exactly where it has a value.
fn put_inputs<N: Num>(
    head: &List,
    bench: &mut Bench<N>,
    ran: bool,
    inputs: &[N],
    places: &mut [N],
) -> bool
    requires few { head.now.inputs ≤ length inputs.now }
    requires places { length places.old ≡ length inputs.now + length head.now.outs }
    requires room { length head.now.steps ≤ bench.old.room }
    requires ran { OnTrue ran (HasHead (written N.CARRIER) head.now (length inputs.now)
        (map N.meaning places.old)) }
    ensures value { OnTrue result (HasHead (written N.CARRIER) head.now (length inputs.now)
        (map N.meaning places.new)) }
    ensures undefined { OnFalse result (value_in (written N.CARRIER) head.now
        (take head.now.inputs (map N.meaning inputs.now)) ≡ None) }
    ensures inputs { take (length inputs.now) places.new ≡ inputs.now }
    ensures room { bench.new.room ≡ bench.old.room }
{
    let stays = head.inputs() as usize;
    let (first, kept) = places.split_at_mut(inputs.len());
    let same = ran && are_same(&first[..stays], &inputs[..stays]);
    first.copy_from_slice(inputs);
    if same {
        return true;
    }
    head.run_into(bench, &inputs[..stays], kept)
}

fn are_same<N: Num>(xs: &[N], ys: &[N]) -> bool
    requires { length xs.now ≡ length ys.now }
    ensures { OnTrue result (map N.meaning xs.now ≡ map N.meaning ys.now) }
{
    for (i, x) in xs.iter().enumerate() {
        if !x.same(ys[i]) {
            return false;
        }
    }
    true
}
