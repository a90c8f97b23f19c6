ghost use Rattle.std.specs.Prelude.{◌≡◌, false, All};
ghost use Rattle.ldp_zone.specs.Inside.{ring_edges, edges_from};
ghost use Rattle.ldp_zone.specs.Area.{IsNear, IsRing, IsPlace, is_in_area};
ghost use Rattle.ldp_zone.specs.Grammar.{is_closed};
ghost use Rattle.ldp_zone.specs.Walk.{walk};
ghost use Rattle.ldp_zone.specs.declared.walked.Walked.TheVariants.{Crossing};

use crate::edge::Edge;
use crate::point::Point;
use crate::walked::Walked;
use std::marker::Model;

/// A ring, seen as the list of its points, of which the last is the first.
#[derive(Drop)]
pub struct Ring {
    points: Vec<Point>,
}

impl Model for Ring {
    ghost use Rattle.std.specs.Prelude.{List};
    ghost use Rattle.ldp_zone.specs.Area.{IsRing};
    ghost use Rattle.ldp_zone.specs.declared.point.Point.{Point};

    ghost Value = { List Point };

    ghost view = { λ ring. ring.points.items };

    ghost invariant = { λ ring. IsRing ring.points.items };
}

impl Ring {
    /// The ring of these points, the last of which is the first.
    pub fn new(points: Vec<Point>) -> Self
        requires { IsRing points.items }
        ensures { result ≡ points.items }
    {
        Ring { points }
    }

    /// The points in order, of which the last is the first.
    pub fn points(&self) -> &[Point]
        ensures value { result.now ≡ self.now }
        ensures keeps { IsRing result.now }
    {
        &self.points
    }

    /// Walks along the edges; `odd` tells whether an odd number of edges before this ring crosses
    /// the ray from the point to the east.
    pub fn walk(&self, at: &Point, odd: bool) -> Walked
        requires { IsPlace at.now }
        ensures value { result ≡ walk at.now odd (ring_edges self.now) }
        ensures outside { is_in_area at.now ≡ false → result ≡ Crossing odd }
    {
        match self.points.split_first() {
            None => Walked::Crossing { odd },
            Some((first, rest)) => walk(*first, rest, at, odd),
        }
    }
}

/// The walk along the edges from a point over those that follow it.
fn walk(first: Point, rest: &[Point], at: &Point, odd: bool) -> Walked
    requires first { IsNear first }
    requires rest { All IsNear rest.now }
    requires at { IsPlace at.now }
    ensures { result ≡ walk at.now odd (edges_from first rest.now) }
{
    let mut start = first;
    let mut odd = odd;
    for point in rest {
        let edge = Edge { start, end: *point };
        if edge.holds(at) {
            return Walked::OnEdge;
        }
        if edge.crosses(at) {
            odd = !odd;
        }
        start = *point;
    }
    Walked::Crossing { odd }
}

/// Whether the last point of a ring is its first.
#[tactic(auto, unfolding(crate::specs::Grammar::is_closed))]
pub fn is_closed(ring: &[Point]) -> bool
    ensures { result ≡ is_closed ring.now }
{
    match (ring.first(), ring.last()) {
        (Some(first), Some(last)) => first.is_same(last),
        _ => false,
    }
}
