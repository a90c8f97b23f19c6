//! What holds of a list of steps along which one value moves, and of which lists it does.
ghost use Rattle.std.specs.Prelude.{Bool};
ghost use Rattle.ldp_tm.specs.TransverseMercator.{transverse_mercator};
ghost use Rattle.ldp_lambert.specs.Lambert.{lambert as lambert_lists};
ghost use Rattle.ldp_lambert2.specs.LambertTwo.{lambert_two as lambert_two_lists};
ghost use Rattle.ldp_hotine.specs.Hotine.{hotine as hotine_lists};
ghost use Rattle.ldp_tolerance.specs.Laws.{OneMovingValue};
ghost use Rattle.ldp_tolerance.specs.Heights.{MoveOnce};

/// The value of a list at a place between two others lies between its values there, where at most
/// one operand of each step moves.
pub fn one_moving_value()
    ensures { OneMovingValue }
{}

/// Along the lists of each kind of projection the height moves once.
pub fn heights_move_once()
    ensures tm { MoveOnce transverse_mercator }
    ensures lambert { MoveOnce lambert_lists }
    ensures lambert_two { MoveOnce lambert_two_lists }
    ensures hotine { (south : Bool) → MoveOnce (hotine_lists south) }
{}
