/// The first cell whose value is undefined.
#[derive(Clone, Copy, Debug, PartialEq, Eq)]
pub struct Undefined {
    /// Its number.
    pub cell: u32,
}
