use ldp_job::Role;

/// Why a certificate is not accepted. A line is one of the certificate's text.
#[derive(Clone, Copy, Debug, PartialEq, Eq)]
pub enum Reason {
    /// The certificate speaks of another file.
    OtherInput { which: Role },
    /// The design is not one of the grids.
    NotAdmissible,
    /// The first cell where the distortion of the design is undefined.
    DesignUnusable { cell: u32 },
    /// The numbers of cells beyond the tolerance.
    OverDiffers { printed: u32, actual: u32 },
    /// The worst absolute distortions, in units of 10^-15.
    WorstDiffers { printed: i128, actual: i128 },
    /// The first line of the report that is not that of the design.
    ReportDiffers { line: u32 },
    /// A tree begins that is not that of the next family.
    TreeOutOfPlace { line: u32 },
    /// A part of a box that is cut has no design.
    BadSplit { line: u32 },
    /// There is no cell of this number.
    NoSuchCell { line: u32 },
    /// The least absolute distortion of a box at the cell, in units of 10^-15, which is below the
    /// printed worst.
    LeafOpen { line: u32, low: i128 },
    /// How many cells are beyond the tolerance for each design of a box, and its least absolute
    /// distortion at the cell, in units of 10^-15: a pair below the printed one.
    ShareOpen { line: u32, over: u32, low: i128 },
    /// A box is not of one design alone, or its design is defined at the cell.
    NotUnusable { line: u32 },
    /// The first family without a tree.
    FamilyMissing { family: u16 },
}
