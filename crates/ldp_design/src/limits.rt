/// The greatest number of families.
pub const MOST_FAMILIES: u16 = 16;

/// The greatest number of nodes of a forest.
pub const MOST_NODES: u32 = 2_000_000;

/// The greatest number of nodes that a search may look at.
pub const MOST_BUDGET: u32 = 1_000_000;

/// The greatest distortion beyond which cells are counted, in units of 10^-15: a million parts per
/// million.
pub const MOST_TOLERANCE: u64 = 1_000_000_000_000_000;
