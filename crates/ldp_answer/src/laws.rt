//! The law of `upgrade`.
ghost use Rattle.ldp_answer.specs.Laws.{UpgradedAreAccepted};

/// The text of an upgraded job is accepted, and upgraded to itself.
pub fn upgraded()
    ensures { UpgradedAreAccepted }
{}
