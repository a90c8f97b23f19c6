/// The largest absolute distortion of a design over the cells.
#[derive(Clone, Copy, Debug, PartialEq, Eq)]
pub enum Worst {
    /// The value, in units of 10^-15, and the first cell that has it.
    Is { value: i128, cell: u32 },
    /// The first cell where the distortion is undefined.
    Unusable { cell: u32 },
}
