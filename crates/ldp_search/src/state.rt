ghost use Rattle.std.specs.Prelude.{◌≡◌, ◌+◌, ◌<◌, [], ◌∷◌, true, false, OnOk, IfSome, IfNone};
ghost use Rattle.std.specs.List.Sorted.{IsPermutation};
ghost use Rattle.ldp_design.specs.Limits.{most_budget};
ghost use Rattle.ldp_problem.specs.Problem.{Problem};
ghost use Rattle.ldp_problem.specs.Costs.{bound_of};
ghost use Rattle.ldp_optimum.specs.Forest.{is_above};
ghost use Rattle.ldp_search.specs.Candidates.{cost_held};
ghost use Rattle.ldp_search.specs.Explored.{IsWaiting, Advances, IsReady, IsDone};

use crate::bounded_box::BoundedBox;
use crate::candidate::{Candidate, better_of};
use crate::frontier::Frontier;
use ldp_design::{DesignBox, is_single};
use ldp_problem::{Bound, Pair};
use std::alloc::{AllocError, Global};

/// How far a search has come.
#[derive(Drop)]
pub struct State {
    /// The boxes of several designs that may still be split.
    pub frontier: Frontier,
    /// The best of the single designs that were evaluated.
    pub best: Option<Candidate>,
    /// How many boxes were evaluated.
    pub evaluated: u32,
}

impl State {
    /// No box is in front, and none was evaluated.
    pub fn new(alloc: Global) -> State
        ensures { result ≡ record { frontier = []; best = None; evaluated = 0 } }
    {
        State {
            frontier: Frontier::new(alloc),
            best: None,
            evaluated: 0,
        }
    }

    /// Takes in the bound of a box.
    pub fn take(&mut self, b: &DesignBox, bound: Bound) -> Result<(), AllocError>
        requires { self.old.evaluated < most_budget }
        ensures next { OnOk result ((p : Problem) → bound ≡ bound_of p b.now
            → Advances p b.now self.old self.new) }
        ensures evaluated { self.new.evaluated ≡ self.old.evaluated + 1 }
    {
        self.evaluated += 1;
        match bound {
            Bound::Unusable { .. } => Ok(()),
            Bound::Low { over, value, cell } => {
                if is_single(b) {
                    let candidate = Candidate {
                        design: b.first(),
                        over,
                        worst: value,
                        cell,
                    };
                    self.best = Some(better_of(self.best, candidate));
                    return Ok(());
                }
                let low = Pair {
                    over,
                    value: value.unsigned_abs(),
                };
                self.keep(BoundedBox { low, region: *b })
            }
        }
    }

    /// Takes the box that is to be split next.
    pub fn choose(&mut self) -> Option<DesignBox>
        ensures ready { IfSome result (λ b. (p : Problem) → IsWaiting p self.old
            → IsReady p b self.new) }
        ensures done { IfNone result ((p : Problem) → IsWaiting p self.old → IsDone p self.new) }
        ensures evaluated { self.new.evaluated ≡ self.old.evaluated }
    {
        let Some(b) = self.frontier.pop() else {
            return None;
        };
        if self.is_closed(&b.low) {
            return None;
        }
        Some(b.region)
    }

    /// Keeps a box that may be split.
    fn keep(&mut self, b: BoundedBox) -> Result<(), AllocError>
        ensures closed { is_above b.low (cost_held self.old.best) ≡ true
            → self.new ≡ self.old }
        ensures splittable { is_above b.low (cost_held self.old.best) ≡ false
            → OnOk result (IsPermutation (b ∷ self.old.frontier) self.new.frontier) }
        ensures best { self.new.best ≡ self.old.best }
        ensures evaluated { self.new.evaluated ≡ self.old.evaluated }
    {
        if self.is_closed(&b.low) {
            return Ok(());
        }
        self.frontier.push(b)
    }

    /// Whether a bound is above the cost of the best so far. A box of such a bound is never split.
    fn is_closed(&self, low: &Pair) -> bool
        ensures { result ≡ is_above low.now (cost_held self.now.best) }
    {
        match &self.best {
            Some(best) => best.cost() < *low,
            None => false,
        }
    }
}
