ghost use Rattle.std.specs.Prelude.{◌≡◌, ◌<◌, ◌≤◌, ◌+◌, ◌-◌, ◌^◌, ◌++◌, ◌∷◌, [], ℕ, List, Option};
ghost use Rattle.std.specs.Prelude.{length, max, pos};
ghost use Rattle.ldp_num.specs.Number.{limit};
ghost use Rattle.ldp_bound.specs.Plain.{HasNumber};
ghost use Rattle.ldp_bound.specs.Summary.{tally_of, counted};

use ldp_problem::{Bound, Cost};

/// What is told of the values at the cells so far: how many are beyond the tolerance, the largest,
/// in units of 10^-15, and the first cell that has it.
#[derive(Clone, Copy)]
pub struct Summary {
    pub over: u32,
    pub value: u128,
    pub cell: u32,
}

impl Summary {
    /// No cell.
    #[tactic(auto, unfolding(crate::specs::Summary::tally_of))]
    pub fn none() -> Summary
        ensures value { (tolerance : Option ℕ) → result ≡ tally_of tolerance [] }
        ensures over { result.over ≡ 0 }
        ensures zero { result.value ≡ 0 }
    {
        Summary {
            over: 0,
            value: 0,
            cell: 0,
        }
    }

    /// With the value at one more cell.
    pub fn with(self, tolerance: Option<u64>, cell: u32, value: u128) -> Summary
        requires few { self.over < 2 ^ 32 - 1 }
        ensures value { (values : List ℕ) → length values ≡ cell
            → self ≡ tally_of tolerance values
            → result ≡ tally_of tolerance (values ++ value ∷ []) }
        ensures over { result.over ≤ self.over + 1 }
        ensures most { result.value ≤ max self.value value }
    {
        let over = over_with(self.over, tolerance, value);
        if value > self.value {
            return Summary { over, value, cell };
        }
        Summary {
            over,
            value: self.value,
            cell: self.cell,
        }
    }

    /// As the bound of a box.
    pub fn bound(self) -> Bound
        requires { self.value ≤ limit }
        ensures { result ≡ Bound.Low self.over (pos self.value) self.cell }
    {
        Bound::Low {
            over: self.over,
            value: signed(self.value),
            cell: self.cell,
        }
    }

    /// As the cost of a design.
    pub fn cost(self) -> Cost
        requires { self.value ≤ limit }
        ensures value { result ≡ Cost.Is self.over (pos self.value) self.cell }
        ensures number { HasNumber result }
    {
        Cost::Is {
            over: self.over,
            value: signed(self.value),
            cell: self.cell,
        }
    }
}

pub(crate) fn signed(value: u128) -> i128
    requires { value ≤ limit }
    ensures { result ≡ pos value }
{
    value as i128
}

fn over_with(over: u32, tolerance: Option<u64>, value: u128) -> u32
    requires { over < 2 ^ 32 - 1 }
    ensures { result ≡ over + counted tolerance value }
{
    let Some(limit) = tolerance else {
        return over;
    };
    if value > u128::from(limit) {
        over + 1
    } else {
        over
    }
}
