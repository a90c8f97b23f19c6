use ldp_design::{Design, Forest};

/// The first design of least cost, and the forest that shows it.
#[derive(Drop)]
pub struct Found {
    pub design: Design,
    /// How many cells are beyond the tolerance; 0 without a tolerance.
    pub over: u32,
    /// The largest absolute distortion, in units of 10^-15.
    pub worst: i128,
    /// The first cell that has it.
    pub cell: u32,
    pub forest: Forest,
    /// The number of nodes of the forest.
    pub nodes: u32,
}
