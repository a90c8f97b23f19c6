use ldp_design::DesignBox;
use ldp_problem::Pair;

/// A box and its bound, ordered by the bound.
#[derive(Clone, Copy, Debug, PartialEq, Eq, PartialOrd, Ord)]
pub struct BoundedBox {
    pub low: Pair,
    pub region: DesignBox,
}
