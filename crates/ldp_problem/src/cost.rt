/// The cost of a design over the cells.
#[derive(Clone, Copy, Debug, PartialEq, Eq)]
pub enum Cost {
    /// How many cells are beyond the tolerance, 0 without a tolerance; the largest absolute
    /// distortion, in units of 10^-15; and the first cell that has it.
    Is { over: u32, value: i128, cell: u32 },
    /// The first cell where the distortion is undefined.
    Unusable { cell: u32 },
}
