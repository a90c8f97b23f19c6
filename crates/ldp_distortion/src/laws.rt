//! What the worst of a design says of its distortions, and what prepared cells keep.
ghost use Rattle.ldp_distortion.specs.Laws.{ValueWhereUsable, PreparedDistortions};

/// The worst is a value exactly where the distortion is defined at each cell.
pub fn usable()
    ensures { ValueWhereUsable }
{}

/// The distortions of a design over cells that were prepared are those over the cells.
pub fn prepared_distortions()
    ensures { PreparedDistortions }
{}
