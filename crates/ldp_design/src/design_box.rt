ghost use Rattle.std.specs.Prelude.{◌≡◌, List, IsTrue, ◌↔◌};
ghost use Rattle.ldp_design.specs.declared.family.Family.{Family};
ghost use Rattle.ldp_design.specs.Designs.{IsAdmitted};
ghost use Rattle.ldp_design.specs.Boxes.{IsIn, IsSingle, is_single, LiesIn, first_of, last_of};
ghost use Rattle.ldp_design.specs.Boxes.{span_of, with_span};
ghost use Rattle.ldp_design.specs.Splits.{IsCut, parts_at};
ghost use Rattle.ldp_design.specs.Laws.{AreParts};

use crate::axis::AxisName;
use crate::design::Design;

/// The indices from `lo` to `hi` on an axis, both among them.
#[derive(Clone, Copy, Debug, PartialEq, Eq, PartialOrd, Ord)]
pub struct Span {
    pub lo: u32,
    pub hi: u32,
}

/// The designs of a family whose index lies in the span of each axis.
#[derive(Clone, Copy, Debug, PartialEq, Eq, PartialOrd, Ord)]
pub struct DesignBox {
    pub family: u16,
    pub lat: Span,
    pub lon: Span,
    pub azimuth: Span,
    pub scale: Span,
}

impl DesignBox {
    /// The span of an axis.
    pub fn span(&self, axis: AxisName) -> Span
        ensures { result ≡ span_of axis self.now }
    {
        match axis {
            AxisName::Lat => self.lat,
            AxisName::Lon => self.lon,
            AxisName::Azimuth => self.azimuth,
            AxisName::Scale => self.scale,
        }
    }

    /// The design with the low index of each axis.
    #[tactic(auto, using(crate::proofs::Wholes::firsts))]
    pub fn first(&self) -> Design
        ensures value { result ≡ first_of self.now }
        ensures within { (families : List Family) → LiesIn families self.now
            → IsIn result self.now }
        ensures admitted { (families : List Family) → LiesIn families self.now
            → IsAdmitted families result }
    {
        Design {
            family: self.family,
            lat: self.lat.lo,
            lon: self.lon.lo,
            azimuth: self.azimuth.lo,
            scale: self.scale.lo,
        }
    }

    /// The design with the high index of each axis.
    pub(crate) fn last(&self) -> Design
        ensures { result ≡ last_of self.now }
    {
        Design {
            family: self.family,
            lat: self.lat.hi,
            lon: self.lon.hi,
            azimuth: self.azimuth.hi,
            scale: self.scale.hi,
        }
    }

    /// The box with another span on one axis.
    fn with_span(&self, axis: AxisName, span: Span) -> DesignBox
        ensures { result ≡ with_span axis span self.now }
    {
        let mut part = *self;
        match axis {
            AxisName::Lat => part.lat = span,
            AxisName::Lon => part.lon = span,
            AxisName::Azimuth => part.azimuth = span,
            AxisName::Scale => part.scale = span,
        }
        part
    }
}

/// Whether a box has one design.
#[tactic(auto, using(crate::proofs::Splits::singles))]
pub fn is_single(b: &DesignBox) -> bool
    ensures value { result ≡ is_single b.now }
    ensures single { IsTrue result ↔ IsSingle b.now }
{
    b.lat.lo == b.lat.hi
        && b.lon.lo == b.lon.hi
        && b.azimuth.lo == b.azimuth.hi
        && b.scale.lo == b.scale.hi
}

/// The two parts of a box that is cut after an index of an axis.
pub fn cut(b: &DesignBox, axis: AxisName, at: u32) -> (DesignBox, DesignBox)
    requires { IsCut axis at b.now }
    ensures value { result ≡ parts_at axis at b.now }
    ensures parts { (families : List Family) → LiesIn families b.now
        → AreParts families b.now result.0 result.1 }
{
    let span = b.span(axis);
    let low = Span {
        lo: span.lo,
        hi: at,
    };
    let high = Span {
        lo: at + 1,
        hi: span.hi,
    };
    (b.with_span(axis, low), b.with_span(axis, high))
}
