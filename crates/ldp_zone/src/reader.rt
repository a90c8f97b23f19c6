ghost use Rattle.std.specs.Prelude.{◌≡◌};
ghost use Rattle.ldp_tokens.specs.Seen.{seen};
ghost use Rattle.ldp_zone.specs.Seen.{Leaves, pending};
ghost use Rattle.ldp_zone.specs.Steps.{begin, geometry, opened, within_body, body, dimension};
ghost use Rattle.ldp_zone.specs.Steps.{polygon, begun, first, ended, second, dropped, third};
ghost use Rattle.ldp_zone.specs.Steps.{ring_whole, point_end, behind_polygon, ring_end};
ghost use Rattle.ldp_zone.specs.Steps.{polygon_end, step, finished};

use crate::coordinates::{is_number, latitude, longitude};
use crate::fault::ZoneFault;
use crate::point::Point;
use crate::ring::{Ring, is_closed};
use crate::signs::{is_close, is_comma, is_open, is_run, is_word};
use crate::spot::Spot;
use crate::zone::Zone;
use ldp_tokens::Token;
use std::alloc::Global;
use std::marker::Model;

/// The most points of a zone.
const MOST_POINTS: u32 = 10_000;

/// A reader of a zone's tokens, seen as what was read so far.
#[derive(Drop)]
pub struct Reader {
    spot: Spot,
    multi: bool,
    rings: Vec<Ring>,
    ring: Vec<Point>,
    x: i128,
    count: u32,
}

impl Model for Reader {
    ghost use Rattle.ldp_zone.specs.Steps.{Progress};
    ghost use Rattle.ldp_zone.specs.Seen.{IsProgress};

    ghost Value = { Progress };

    ghost view = { λ reader. record {
      spot = reader.spot;
      multi = reader.multi;
      rings = reader.rings.items;
      ring = reader.ring.items;
      x = reader.x;
      count = reader.count;
    } };

    ghost invariant = { λ reader. IsProgress record {
      spot = reader.spot;
      multi = reader.multi;
      rings = reader.rings.items;
      ring = reader.ring.items;
      x = reader.x;
      count = reader.count;
    } };
}

impl Reader {
    /// Before the first token.
    pub fn new(alloc: Global) -> Self
        ensures { result ≡ begin }
    {
        Reader {
            spot: Spot::Geometry,
            multi: false,
            rings: Vec::new(alloc),
            ring: Vec::new(alloc),
            x: 0,
            count: 0,
        }
    }

    /// Takes one token more.
    #[tactic(auto, unfolding(crate::specs::Steps::step))]
    pub fn take(&mut self, token: &Token<'_>) -> Result<(), ZoneFault>
        ensures { Leaves result self.new (step self.old (seen token.now)) }
    {
        match self.spot {
            Spot::Geometry => self.geometry(token),
            Spot::Dimension => self.dimension(token),
            Spot::Body => self.body(token),
            Spot::Polygon => self.polygon(token),
            Spot::Ring => self.opened(Spot::First, token),
            Spot::First => self.first(token),
            Spot::Second => self.second(token),
            Spot::Third => self.third(token),
            Spot::PointEnd => self.point_end(token),
            Spot::RingEnd => self.ring_end(token),
            Spot::PolygonEnd => self.polygon_end(token),
            Spot::End => Err(ZoneFault::Trailing(token.place)),
        }
    }

    /// The zone, where the text of so many bytes may end.
    #[tactic(auto, unfolding(crate::specs::Steps::finished))]
    pub fn finish(self, end: usize) -> Result<Zone, ZoneFault>
        ensures { result ≡ finished end self }
    {
        let Reader {
            spot,
            multi: _,
            rings,
            ring: _,
            x: _,
            count: _,
        } = self;
        match spot {
            Spot::End => Ok(Zone::new(rings)),
            _ => Err(ZoneFault::NotAPolygon(end)),
        }
    }

    /// The word of the geometry.
    #[tactic(auto, unfolding(crate::specs::Steps::geometry))]
    fn geometry(&mut self, token: &Token<'_>) -> Result<(), ZoneFault>
        ensures { Leaves result self.new (geometry self.old (seen token.now)) }
    {
        if is_word(token, b"POLYGON") {
            self.multi = false;
            self.spot = Spot::Dimension;
        } else if is_word(token, b"MULTIPOLYGON") {
            self.multi = true;
            self.spot = Spot::Dimension;
        } else if is_word(token, b"POLYGONZ") {
            self.multi = false;
            self.spot = Spot::Body;
        } else if is_word(token, b"MULTIPOLYGONZ") {
            self.multi = true;
            self.spot = Spot::Body;
        } else {
            return Err(ZoneFault::NotAPolygon(token.place));
        }
        Ok(())
    }

    /// A `(`.
    #[tactic(auto, unfolding(crate::specs::Steps::opened))]
    fn opened(&mut self, next: Spot, token: &Token<'_>) -> Result<(), ZoneFault>
        requires { pending next ≡ 0 }
        ensures { Leaves result self.new (opened next self.old (seen token.now)) }
    {
        if !is_open(token) {
            return Err(ZoneFault::NotAPolygon(token.place));
        }
        self.spot = next;
        Ok(())
    }

    /// The text of the geometry.
    #[tactic(auto, unfolding(crate::specs::Steps::body))]
    fn body(&mut self, token: &Token<'_>) -> Result<(), ZoneFault>
        ensures { Leaves result self.new (body self.old (seen token.now)) }
    {
        if is_word(token, b"EMPTY") {
            self.spot = Spot::End;
            return Ok(());
        }
        let next = if self.multi {
            Spot::Polygon
        } else {
            Spot::Ring
        };
        self.opened(next, token)
    }

    /// An optional `Z`; a geometry with M values is refused.
    #[tactic(auto, unfolding(crate::specs::Steps::dimension))]
    fn dimension(&mut self, token: &Token<'_>) -> Result<(), ZoneFault>
        ensures { Leaves result self.new (dimension self.old (seen token.now)) }
    {
        if is_word(token, b"Z") {
            self.spot = Spot::Body;
            return Ok(());
        }
        if is_word(token, b"M") || is_word(token, b"ZM") {
            return Err(ZoneFault::Measured(token.place));
        }
        self.body(token)
    }

    /// The text of a polygon in a multipolygon.
    #[tactic(auto, unfolding(crate::specs::Steps::polygon))]
    fn polygon(&mut self, token: &Token<'_>) -> Result<(), ZoneFault>
        ensures { Leaves result self.new (polygon self.old (seen token.now)) }
    {
        if is_word(token, b"EMPTY") {
            self.spot = Spot::PolygonEnd;
            return Ok(());
        }
        self.opened(Spot::Ring, token)
    }

    /// The first number of a point.
    #[tactic(auto, unfolding(crate::specs::Steps::first))]
    fn first(&mut self, token: &Token<'_>) -> Result<(), ZoneFault>
        requires { pending self.old.spot ≡ 0 }
        ensures { Leaves result self.new (first self.old (seen token.now)) }
    {
        if !is_run(token) {
            return Err(ZoneFault::NotAPolygon(token.place));
        }
        self.begun(token)
    }

    #[tactic(auto, unfolding(crate::specs::Steps::begun))]
    fn begun(&mut self, token: &Token<'_>) -> Result<(), ZoneFault>
        requires { pending self.old.spot ≡ 0 }
        ensures { Leaves result self.new (begun self.old (seen token.now)) }
    {
        if self.count >= MOST_POINTS {
            return Err(ZoneFault::TooManyPoints);
        }
        let x = longitude(token)?;
        self.x = x;
        self.count += 1;
        self.spot = Spot::Second;
        Ok(())
    }

    /// The second number of a point.
    #[tactic(auto, unfolding(crate::specs::Steps::second))]
    fn second(&mut self, token: &Token<'_>) -> Result<(), ZoneFault>
        requires { pending self.old.spot ≡ 1 }
        ensures { Leaves result self.new (second self.old (seen token.now)) }
    {
        if !is_run(token) {
            return Err(ZoneFault::NotAPolygon(token.place));
        }
        self.ended(token)
    }

    #[tactic(auto, unfolding(crate::specs::Steps::ended))]
    fn ended(&mut self, token: &Token<'_>) -> Result<(), ZoneFault>
        requires { pending self.old.spot ≡ 1 }
        ensures { Leaves result self.new (ended self.old (seen token.now)) }
    {
        let y = latitude(token)?;
        let x = self.x;
        self.ring.push(Point { x, y })?;
        self.spot = Spot::Third;
        Ok(())
    }

    /// A third number, which is dropped, or what stands behind a point.
    #[tactic(auto, unfolding(crate::specs::Steps::third))]
    fn third(&mut self, token: &Token<'_>) -> Result<(), ZoneFault>
        requires { pending self.old.spot ≡ 0 }
        ensures { Leaves result self.new (third self.old (seen token.now)) }
    {
        if is_run(token) {
            return self.height(token);
        }
        self.point_end(token)
    }

    #[tactic(auto, unfolding(crate::specs::Steps::dropped, crate::specs::Coordinates::height))]
    fn height(&mut self, token: &Token<'_>) -> Result<(), ZoneFault>
        ensures { Leaves result self.new (dropped self.old (seen token.now)) }
    {
        if !is_number(token.bytes) {
            return Err(ZoneFault::BadNumber(token.place));
        }
        self.spot = Spot::PointEnd;
        Ok(())
    }

    /// Behind a point.
    #[tactic(auto, unfolding(crate::specs::Steps::point_end))]
    fn point_end(&mut self, token: &Token<'_>) -> Result<(), ZoneFault>
        requires { pending self.old.spot ≡ 0 }
        ensures { Leaves result self.new (point_end self.old (seen token.now)) }
    {
        if is_comma(token) {
            self.spot = Spot::First;
            return Ok(());
        }
        if is_close(token) {
            return self.ring_whole();
        }
        Err(ZoneFault::NotAPolygon(token.place))
    }

    /// The `)` of a ring.
    #[tactic(auto, using(crate::proofs::Rings::closing), unfolding(crate::specs::Steps::ring_whole, crate::specs::Grammar::with_ring))]
    fn ring_whole(&mut self) -> Result<(), ZoneFault>
        requires { pending self.old.spot ≡ 0 }
        ensures { Leaves result self.new (ring_whole self.old) }
    {
        if self.ring.len() < 4 {
            return Err(ZoneFault::ShortRing(self.rings.len() as u32));
        }
        if !is_closed(&self.ring) {
            return Err(ZoneFault::OpenRing(self.rings.len() as u32));
        }
        let alloc = *self.ring.allocator();
        let points = std::mem::replace(&mut self.ring, Vec::new(alloc));
        self.rings.push(Ring::new(points))?;
        self.spot = Spot::RingEnd;
        Ok(())
    }

    /// Behind a ring.
    #[tactic(auto, unfolding(crate::specs::Steps::ring_end))]
    fn ring_end(&mut self, token: &Token<'_>) -> Result<(), ZoneFault>
        ensures { Leaves result self.new (ring_end self.old (seen token.now)) }
    {
        if is_comma(token) {
            self.spot = Spot::Ring;
        } else if is_close(token) {
            self.spot = if self.multi {
                Spot::PolygonEnd
            } else {
                Spot::End
            };
        } else {
            return Err(ZoneFault::NotAPolygon(token.place));
        }
        Ok(())
    }

    /// Behind a polygon in a multipolygon.
    #[tactic(auto, unfolding(crate::specs::Steps::polygon_end))]
    fn polygon_end(&mut self, token: &Token<'_>) -> Result<(), ZoneFault>
        ensures { Leaves result self.new (polygon_end self.old (seen token.now)) }
    {
        if is_comma(token) {
            self.spot = Spot::Polygon;
        } else if is_close(token) {
            self.spot = Spot::End;
        } else {
            return Err(ZoneFault::NotAPolygon(token.place));
        }
        Ok(())
    }
}
