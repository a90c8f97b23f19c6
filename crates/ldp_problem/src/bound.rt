/// The bound of a box: no usable design in it has a smaller cost.
#[derive(Clone, Copy, Debug, PartialEq, Eq)]
pub enum Bound {
    /// How many cells are beyond the tolerance for each design of the box, 0 without a tolerance;
    /// the greatest of the least absolute distortions at the cells, in units of 10^-15; and the
    /// first cell that has it.
    Low { over: u32, value: i128, cell: u32 },
    /// The box is of one design alone: the first cell where its distortion is undefined.
    Unusable { cell: u32 },
}
