/// Which end of the heights.
#[derive(Clone, Copy, Debug, PartialEq, Eq)]
pub enum Side {
    /// Each height lowered by the tolerance.
    Low,
    /// Each height raised by it.
    High,
}

/// The worst of a design over cells whose heights are uncertain by a tolerance.
#[derive(Clone, Copy, Debug, PartialEq, Eq)]
pub enum Slack {
    /// The value, in units of 10^-15, the first cell that has it, and where the height stands there.
    Is { value: i128, cell: u32, side: Side },
    /// The first cell where the distortion is undefined at the lower or at the higher height.
    Unusable { cell: u32 },
}
