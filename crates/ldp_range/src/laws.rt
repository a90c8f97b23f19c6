//! The laws of ranges, for a formula as a whole, and for a range.
ghost use Rattle.ldp_range.specs.Laws.{Inclusion, StepInclusion, Sharpness, StepSharpness};
ghost use Rattle.ldp_range.specs.Laws.{OperationsHold, Following, StepFollowing};
ghost use Rattle.ldp_range.specs.Laws.{Isotony, StepIsotony, TwinInclusion, StepTwinInclusion};
ghost use Rattle.ldp_range.specs.Laws.{TwinMost, TwinFewest, OwnTwin, TwinOfNumbers};
ghost use Rattle.ldp_range.specs.Laws.{HullHolds, AbsoluteBounds, LeastIsNatural, AbsoluteOfOne};

/// Each operation at ranges holds it at each of their numbers.
pub fn operations()
    ensures { OperationsHold }
{}

/// A run in ranges holds each run at a point of its ranges.
pub fn inclusion()
    ensures value { Inclusion }
    ensures steps { StepInclusion }
{}

/// A run at ranges of one number each is the run at that point.
pub fn sharpness()
    ensures value { Sharpness }
    ensures steps { StepSharpness }
{}

/// A run over narrower ranges lies within each run over ranges that they lie in.
pub fn isotony()
    ensures value { Isotony }
    ensures steps { StepIsotony }
{}

/// A run in twins stands for each run over ranges that its twins stand for.
pub fn twin_inclusion()
    ensures value { TwinInclusion }
    ensures steps { StepTwinInclusion }
{}

/// What a twin bounds, the twin of one range, and a twin of numbers.
pub fn twins()
    ensures most { TwinMost }
    ensures fewest { TwinFewest }
    ensures own { OwnTwin }
    ensures numbers { TwinOfNumbers }
{}

/// Two runs of one list, over values that are related step by step.
pub fn following<A, B>()
    ensures value { Following A B }
    ensures steps { StepFollowing A B }
{}

/// The hull holds both ranges.
pub fn hulls()
    ensures { HullHolds }
{}

/// The least and the greatest absolute value bound that of each number in the range, and at one
/// number they are its own.
pub fn absolute_values()
    ensures bounds { AbsoluteBounds }
    ensures natural { LeastIsNatural }
    ensures sharp { AbsoluteOfOne }
{}
