/// By which bounds a search over design grids goes.
#[derive(Clone, Copy, Debug, PartialEq, Eq)]
pub enum Rule {
    /// Ranges of values.
    Plain,
    /// Ranges of values and of slopes.
    Slope,
}
