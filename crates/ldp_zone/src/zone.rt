ghost use Rattle.std.specs.Prelude.{◌≡◌, ◌<◌, false, length, slice_get, Some, IsTrue};
ghost use Rattle.ldp_zone.specs.Inside.{edges, inside};
ghost use Rattle.ldp_zone.specs.Area.{IsNear, IsFar, IsPlace, IsRing, IsZone, is_in_area};
ghost use Rattle.ldp_zone.specs.Walk.{walk};
ghost use Rattle.ldp_zone.specs.declared.walked.Walked.TheVariants.{Crossing};

use crate::point::Point;
use crate::ring::Ring;
use crate::walked::Walked;
use std::marker::Model;

/// A zone, seen as the list of its rings, each a list of points in 10^-12 degrees.
#[derive(Drop)]
pub struct Zone {
    rings: Vec<Ring>,
}

impl Model for Zone {
    ghost use Rattle.std.specs.Prelude.{List};
    ghost use Rattle.ldp_zone.specs.Area.{IsZone};
    ghost use Rattle.ldp_zone.specs.declared.point.Point.{Point};

    ghost Value = { List (List Point) };

    ghost view = { λ zone. zone.rings.items };

    ghost invariant = { λ zone. IsZone zone.rings.items };
}

impl Zone {
    pub(crate) fn new(rings: Vec<Ring>) -> Self
        requires { IsZone rings.items }
        ensures { result ≡ rings.items }
    {
        Zone { rings }
    }

    /// The number of rings.
    #[tactic(auto, using(crate::proofs::Rings::rings_few))]
    pub fn rings(&self) -> u32
        ensures value { result ≡ length self.now }
        ensures keeps { IsZone self.now }
    {
        self.rings.len() as u32
    }

    /// The points of the ring with this index; the last is the first.
    pub fn ring(&self, i: u32) -> &[Point]
        requires { i < length self.now }
        ensures value { slice_get self.now i ≡ Some result.now }
        ensures keeps { IsRing result.now }
    {
        self.rings[i as usize].points()
    }

    /// Whether a point lies in the zone, by the even-odd rule over all rings; a point on an edge
    /// does. Takes no memory.
    pub fn has(&self, x: i128, y: i128) -> bool
        requires x { IsFar x }
        requires y { IsFar y }
        ensures value { result ≡ inside self.now x y }
        ensures within { IsTrue result → IsNear record { x = x; y = y } }
    {
        walk(&self.rings, &Point { x, y }).is_inside()
    }
}

/// The walk along the edges of all rings.
fn walk(rings: &[Ring], at: &Point) -> Walked
    requires { IsPlace at.now }
    ensures value { result ≡ walk at.now false (edges rings.now) }
    ensures outside { is_in_area at.now ≡ false → result ≡ Crossing false }
{
    let mut odd = false;
    for ring in rings {
        match ring.walk(at, odd) {
            Walked::OnEdge => return Walked::OnEdge,
            Walked::Crossing { odd: with_ring } => odd = with_ring,
        }
    }
    Walked::Crossing { odd }
}
