/// How many cells lie beyond a tolerance.
#[derive(Clone, Copy, Debug, PartialEq, Eq)]
pub struct Share {
    pub over: u32,
    /// In 10^-15.
    pub tolerance: i128,
}
