ghost use Rattle.std.specs.Prelude.{◌≡◌, ◌≤◌, ◌*◌, ◌^◌, unsigned_abs};
ghost use Rattle.ldp_zone.specs.Inside.{edge_east, point_east, spans, between, meets_east, crosses};
ghost use Rattle.ldp_zone.specs.Inside.{in_box, on_line, on_edge};
ghost use Rattle.ldp_zone.specs.Area.{IsEdge, IsPlace};

use crate::point::Point;
use crate::product::product;

/// An edge of a ring, from one of its points to the next.
#[derive(Clone, Copy, Debug, PartialEq, Eq)]
pub struct Edge {
    pub start: Point,
    pub end: Point,
}

impl Edge {
    /// How far east of its start the edge meets the height of a point, times the edge's rise.
    #[tactic(auto, unfolding(crate::specs::Inside::edge_east))]
    pub fn edge_east(&self, at: &Point) -> i128
        requires edge { IsEdge self.now }
        requires at { IsPlace at.now }
        ensures value { result ≡ edge_east at.now self.now }
        ensures small { unsigned_abs result ≤ 16 * 10 ^ 34 }
    {
        product(at.y - self.start.y, self.end.x - self.start.x)
    }

    /// How far east of the edge's start a point lies, times the edge's rise.
    #[tactic(auto, unfolding(crate::specs::Inside::point_east))]
    pub fn point_east(&self, at: &Point) -> i128
        requires edge { IsEdge self.now }
        requires at { IsPlace at.now }
        ensures value { result ≡ point_east at.now self.now }
        ensures small { unsigned_abs result ≤ 16 * 10 ^ 34 }
    {
        product(at.x - self.start.x, self.end.y - self.start.y)
    }

    /// Whether exactly one end of the edge is above the height of a point.
    pub fn spans(&self, at: &Point) -> bool
        ensures { result ≡ spans at.now self.now }
    {
        (at.y < self.start.y) != (at.y < self.end.y)
    }

    #[tactic(auto, unfolding(crate::specs::Inside::meets_east))]
    fn meets_east(&self, at: &Point) -> bool
        requires edge { IsEdge self.now }
        requires at { IsPlace at.now }
        ensures { result ≡ meets_east at.now self.now }
    {
        let edge = self.edge_east(at);
        let point = self.point_east(at);
        if self.start.y < self.end.y {
            point < edge
        } else {
            edge < point
        }
    }

    /// Whether the edge crosses the ray from a point to the east.
    #[tactic(auto, unfolding(crate::specs::Inside::crosses))]
    pub fn crosses(&self, at: &Point) -> bool
        requires edge { IsEdge self.now }
        requires at { IsPlace at.now }
        ensures { result ≡ crosses at.now self.now }
    {
        self.spans(at) && self.meets_east(at)
    }

    #[tactic(auto, unfolding(crate::specs::Inside::in_box))]
    fn in_box(&self, at: &Point) -> bool
        ensures { result ≡ in_box at.now self.now }
    {
        self.in_width(at) && self.in_height(at)
    }

    fn in_width(&self, at: &Point) -> bool
        ensures { result ≡ between self.now.start.x self.now.end.x at.now.x }
    {
        (self.start.x <= at.x && at.x <= self.end.x) || (self.end.x <= at.x && at.x <= self.start.x)
    }

    /// Whether the height of a point lies between those of the edge's ends, or is one of them.
    pub fn in_height(&self, at: &Point) -> bool
        ensures { result ≡ between self.now.start.y self.now.end.y at.now.y }
    {
        (self.start.y <= at.y && at.y <= self.end.y) || (self.end.y <= at.y && at.y <= self.start.y)
    }

    #[tactic(auto, unfolding(crate::specs::Inside::on_line))]
    fn on_line(&self, at: &Point) -> bool
        requires edge { IsEdge self.now }
        requires at { IsPlace at.now }
        ensures { result ≡ on_line at.now self.now }
    {
        let edge = self.edge_east(at);
        let point = self.point_east(at);
        edge <= point && point <= edge
    }

    /// Whether a point lies on the edge.
    #[tactic(auto, unfolding(crate::specs::Inside::on_edge))]
    pub fn holds(&self, at: &Point) -> bool
        requires edge { IsEdge self.now }
        requires at { IsPlace at.now }
        ensures { result ≡ on_edge at.now self.now }
    {
        self.in_box(at) && self.on_line(at)
    }
}
