//! What an accepted certificate shows.
ghost use Rattle.ldp_check.specs.Verdicts.{AcceptedAreProved};

/// The design of an accepted certificate has its printed cost, and no usable design a smaller one.
pub fn accepted()
    ensures { AcceptedAreProved }
{}
