//! What follows of any problem whose least distortions of boxes are sound, of the order of pairs,
//! and of lists over cells.
ghost use Rattle.std.specs.Prelude.{ℕ, Option};
ghost use Rattle.ldp_problem.specs.Laws.{NoneUndefined, UsableHasNone, FirstUndefined};
ghost use Rattle.ldp_problem.specs.Laws.{BoundBelow, LeafBelow, LowBelow};
ghost use Rattle.ldp_problem.specs.Laws.{SingleExact, BoundAtCell, WorstAtCell};
ghost use Rattle.ldp_problem.specs.Laws.{PairsAreOrdered, AtMostFollows};
ghost use Rattle.ldp_problem.specs.Laws.{CellsAreCounted, CellsStand, LargestGrows, LargestIsAbove};
ghost use Rattle.ldp_problem.specs.Laws.{BeyondGrows, BeyondOfOne};

/// Where a design is undefined.
pub fn undefined_cells()
    ensures none { NoneUndefined }
    ensures usable { UsableHasNone }
    ensures first { FirstUndefined }
{}

/// The bound of a box, and what a leaf shows at one cell.
pub fn bounds_below()
    ensures bound { BoundBelow }
    ensures leaf { LeafBelow }
    ensures low { LowBelow }
{}

/// At one design the bound is the cost.
pub fn singles()
    ensures { SingleExact }
{}

/// The cells that are named.
pub fn named_cells()
    ensures bound { BoundAtCell }
    ensures worst { WorstAtCell }
{}

/// Pairs are in order.
pub fn pairs()
    ensures ordered { PairsAreOrdered }
    ensures follows { AtMostFollows }
{}

/// What is so at each cell, in a list: numbers, and numbers that may be undefined.
pub fn cells()
    ensures counted { CellsAreCounted ℕ × CellsAreCounted (Option ℕ) }
    ensures stand { CellsStand ℕ × CellsStand (Option ℕ) }
{}

/// The largest of some values.
pub fn largest_values()
    ensures grows { LargestGrows }
    ensures above { LargestIsAbove }
{}

/// How many values are beyond a tolerance.
pub fn values_beyond()
    ensures grows { BeyondGrows }
    ensures one { BeyondOfOne }
{}
