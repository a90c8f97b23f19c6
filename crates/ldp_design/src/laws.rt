//! The laws of designs and boxes, for all of them at once.
ghost use Rattle.ldp_design.specs.Shapes.{ShapesAreForests};
ghost use Rattle.ldp_design.specs.Laws.{WholesHold, BoxesAreAdmitted, AdmittedAreTested};
ghost use Rattle.ldp_design.specs.Laws.{FirstsAreIn, FirstsAreAdmitted, SinglesHaveOne};
ghost use Rattle.ldp_design.specs.Laws.{SinglesAreTested, CutsPart};
ghost use Rattle.ldp_design.specs.Laws.{SplitsCut, SinglesEnd, InputsLieBetween};
ghost use Rattle.ldp_design.specs.Laws.{FamiliesAreInRange};

/// The whole of a family lies in it and has all its admissible designs.
pub fn wholes()
    ensures { WholesHold }
{}

/// Each design of a box that lies in its family is admissible, and the test admits what is.
pub fn admitted()
    ensures boxes { BoxesAreAdmitted }
    ensures tested { AdmittedAreTested }
{}

/// The first design of a box that lies in its family is one of the box.
pub fn firsts()
    ensures within { FirstsAreIn }
    ensures admitted { FirstsAreAdmitted }
{}

/// A single has no design but its first and last, and the test finds it.
pub fn singles()
    ensures one { SinglesHaveOne }
    ensures tested { SinglesAreTested }
{}

/// A box that is cut within a span has two smaller parts with its designs.
pub fn cuts()
    ensures { CutsPart }
{}

/// A box that is split is cut within the span of its widest axis.
pub fn splits()
    ensures { SplitsCut }
{}

/// A box has no split exactly where it is a single.
pub fn ends()
    ensures { SinglesEnd }
{}

/// The inputs of a box hold those of each of its designs.
pub fn inputs()
    ensures { InputsLieBetween }
{}

/// A list of entries is well shaped exactly where it is trees one after the other.
pub fn shapes()
    ensures { ShapesAreForests }
{}

/// The counts and the values of a family are in range.
pub fn ranges()
    ensures { FamiliesAreInRange }
{}
