//! The laws of the distortion of boxes, for all families and cells.
ghost use Rattle.ldp_bound.specs.Laws.{PlainIsSound, RangesHold, SinglesAreSharp};
ghost use Rattle.ldp_bound.specs.Laws.{DistortionFollows};

/// The problem over families and cells is sound, whoever bounds it.
pub fn sound()
    ensures { PlainIsSound }
{}

/// The range of a box holds the distortion of its designs, and at one design it is that.
pub fn ranges()
    ensures hold { RangesHold }
    ensures sharp { SinglesAreSharp }
{}

/// The distortion in two carriers whose values are related list by list.
pub fn following<A, B>()
    ensures { DistortionFollows A B }
{}
