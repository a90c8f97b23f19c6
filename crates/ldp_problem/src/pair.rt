/// A cost, or a bound of costs: how many cells are beyond the tolerance, and an absolute
/// distortion in units of 10^-15. Pairs are compared by the first number, and where that is equal
/// by the second.
#[derive(Clone, Copy, Debug, PartialEq, Eq, PartialOrd, Ord)]
pub struct Pair {
    pub over: u32,
    pub value: u128,
}
