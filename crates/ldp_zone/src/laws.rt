//! A law of the definitions, for proofs: the function does nothing.

ghost use Rattle.std.specs.Prelude.{ℤ, List, IsTrue};
ghost use Rattle.ldp_zone.specs.Inside.{inside};
ghost use Rattle.ldp_zone.specs.Area.{IsNear, IsZone};
ghost use Rattle.ldp_zone.specs.declared.point.Point.{Point};

/// A point that lies in a zone is one that a zone may have.
pub fn inside_is_near()
    ensures { (rings : List (List Point)) (x y : ℤ) → IsZone rings → IsTrue (inside rings x y)
        → IsNear record { x = x; y = y } }
{}
