//! Laws of the definitions, for proofs: the functions do nothing.

ghost use Rattle.ldp_alignment.specs.Heights.{FourAreEnough, ExactAtCentres};

/// The sum over all places of a grid is that over the four about a point.
#[tactic(auto, using(crate::proofs::Fours::four_enough))]
pub fn four_are_enough()
    ensures { FourAreEnough }
{}

/// At the centre of a place that has a height, the height is that of the place.
#[tactic(auto, using(crate::proofs::Centres::exact_at_centres))]
pub fn centres_are_exact()
    ensures { ExactAtCentres }
{}
