use ldp_problem::{Bound, Cost};
use std::fmt;

/// What was answered.
#[derive(Clone, Copy)]
pub enum Answer {
    Bound(Bound),
    Number(i128),
    Nothing,
    Truth(bool),
    /// So many, and all of them, are as they have to be.
    All(u32),
    /// The first that is not, from 0.
    Not(u32),
}

/// A cost as the bound of its design.
pub fn bound_of(cost: Cost) -> Bound {
    match cost {
        Cost::Is { over, value, cell } => Bound::Low { over, value, cell },
        Cost::Unusable { cell } => Bound::Unusable { cell },
    }
}

impl fmt::Display for Answer {
    fn fmt<W: fmt::Write>(&self, f: &mut fmt::Formatter<W>) -> fmt::Result {
        match *self {
            Answer::Bound(Bound::Low { over, value, cell }) => {
                write!(f, "{over} beyond, {value} at cell {cell}")
            }
            Answer::Bound(Bound::Unusable { cell }) => write!(f, "undefined at cell {cell}"),
            Answer::Number(number) => write!(f, "{number}"),
            Answer::Nothing => write!(f, "none"),
            Answer::Truth(true) => write!(f, "yes"),
            Answer::Truth(false) => write!(f, "no"),
            Answer::All(count) => write!(f, "all {count}"),
            Answer::Not(number) => write!(f, "not number {number}"),
        }
    }
}
