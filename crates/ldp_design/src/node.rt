use crate::axis::AxisName;

/// An entry of a forest.
#[derive(Clone, Copy, Debug, PartialEq, Eq)]
pub enum Node {
    /// A tree begins, whose root is the whole of this family.
    Tree { family: u16 },
    /// A box is cut: the low part ends with the index `cut` of the axis.
    Split { axis: AxisName, cut: u32 },
    /// A box that is closed by what it is worth at this cell.
    Leaf { cell: u32 },
    /// A box of one design, which is undefined at this cell.
    Unusable { cell: u32 },
}
