ghost use Rattle.std.specs.Prelude.{◌≡◌};
ghost use Rattle.ldp_optimum.specs.Best.{is_better};
ghost use Rattle.ldp_search.specs.Candidates.{cost_shown, ranked_of, better_of};

use ldp_design::Design;
use ldp_problem::Pair;

/// A usable design with its cost, in units of 10^-15, and the first cell of its worst distortion.
#[derive(Clone, Copy, Debug, PartialEq, Eq)]
pub struct Candidate {
    pub design: Design,
    pub over: u32,
    pub worst: i128,
    pub cell: u32,
}

impl Candidate {
    /// The cost of the design.
    pub fn cost(&self) -> Pair
        ensures { result ≡ cost_shown self.now }
    {
        Pair {
            over: self.over,
            value: self.worst.unsigned_abs(),
        }
    }

    /// Whether the cost is smaller, or equal and the design comes earlier.
    pub fn is_better(&self, other: &Candidate) -> bool
        ensures { result ≡ is_better (ranked_of self.now) (ranked_of other.now) }
    {
        let by_cost = self.cost().cmp(&other.cost());
        by_cost.then(self.design.cmp(&other.design)).is_lt()
    }
}

/// The better one of two; of equal ones the first.
pub fn better_of(best: Option<Candidate>, candidate: Candidate) -> Candidate
    ensures { result ≡ better_of best candidate }
{
    match best {
        Some(best) if !candidate.is_better(&best) => best,
        _ => candidate,
    }
}
