/// A step of a formula. Operands are places of earlier steps, and a constant is in units of 10^-15.
#[derive(Clone, Copy, Debug, PartialEq, Eq)]
pub enum Step {
    Const(i128),
    Input(u16),
    Add(u16, u16),
    Sub(u16, u16),
    Mul(u16, u16),
    Div(u16, u16),
    Sq(u16),
    Sqrt(u16),
    Need(u16),
}

/// The most steps of a list.
pub const MOST_STEPS: usize = 4096;

/// The most inputs of a list.
pub const MOST_INPUTS: usize = 16;

/// The most results of a list.
pub const MOST_RESULTS: usize = 8;
