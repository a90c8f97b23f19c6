ghost use Rattle.std.specs.Prelude.{◌≡◌};
ghost use Rattle.ldp_bound.specs.Summary.{single_bound};

use ldp_problem::{Bound, Cost};

/// The bound of a single, from the cost of its design.
pub(crate) fn bound_of_single(cost: Cost) -> Bound
    ensures { result ≡ single_bound cost }
{
    match cost {
        Cost::Is { over, value, cell } => Bound::Low { over, value, cell },
        Cost::Unusable { cell } => Bound::Unusable { cell },
    }
}
