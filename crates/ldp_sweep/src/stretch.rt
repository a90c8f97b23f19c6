/// A stretch of cells, one after another. In a list of nodes it comes after its parts, and those
/// with the last cells come first.
#[derive(Clone, Copy, Debug, PartialEq, Eq)]
pub struct Stretch {
    /// The first of its cells.
    pub from: u32,
    /// The cell after its last.
    pub to: u32,
    /// How many nodes come before its first part; those before itself where it has no parts.
    pub skip: usize,
}
