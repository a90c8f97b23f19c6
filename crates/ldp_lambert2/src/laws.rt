//! What the lists keep, each law the contract of a function that does nothing.
ghost use Rattle.ldp_lambert2.specs.Laws.{ExactOnTheFirstParallel};

/// On its first parallel, at height 0, a design of scale factor 1 has the distortion 0.
pub fn exact_on_the_first_parallel()
    ensures { ExactOnTheFirstParallel }
{}
