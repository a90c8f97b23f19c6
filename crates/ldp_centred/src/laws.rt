//! The laws of items of slopes, for a formula as a whole, for an item, and for an input.
ghost use Rattle.ldp_centred.specs.Laws.{OperationsMeet, Soundness, StepSoundness};
ghost use Rattle.ldp_centred.specs.Laws.{RangesKept, StepRangesKept};
ghost use Rattle.ldp_centred.specs.Laws.{LowestIsBelow, LowestIsSharper, LowestIsExact};
ghost use Rattle.ldp_centred.specs.Laws.{LowestIsNatural, InputMeets};

/// Each operation at items that meet numbers meets its result at the numbers.
pub fn operations()
    ensures { OperationsMeet }
{}

/// A run over items meets the run at each point that the items meet.
pub fn soundness()
    ensures value { Soundness }
    ensures steps { StepSoundness }
{}

/// A run over items has the ranges of the run over their ranges, and is defined exactly where that is.
pub fn ranges()
    ensures value { RangesKept }
    ensures steps { StepRangesKept }
{}

/// What the least absolute value of an item over a box says of the value at each point of the box.
pub fn lowest_values()
    ensures below { LowestIsBelow }
    ensures sharper { LowestIsSharper }
    ensures exact { LowestIsExact }
    ensures natural { LowestIsNatural }
{}

/// The item of a design input meets the input at each point of its range.
pub fn inputs()
    ensures { InputMeets }
{}
