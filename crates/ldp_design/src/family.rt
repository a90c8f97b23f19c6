ghost use Rattle.std.specs.Prelude.{◌≡◌, ◌<◌};
ghost use Rattle.ldp_design.specs.Families.{IsValid, value_at};
ghost use Rattle.ldp_design.specs.Designs.{axis_of, IsValueOn};

use crate::axis::{Axis, AxisName, value_at};

/// The kinds of projection.
#[derive(Clone, Copy, Debug, PartialEq, Eq)]
pub enum Kind {
    /// Transverse Mercator.
    Tm,
    /// Lambert conformal conic with one standard parallel.
    Lambert,
    /// Oblique Mercator (Hotine).
    Hotine,
    /// Lambert conformal conic with two standard parallels.
    Lambert2,
}

/// A grid of designs of one kind.
#[derive(Clone, Copy, Debug, PartialEq, Eq)]
pub struct Family {
    pub kind: Kind,
    /// The latitude of origin, of the centre, or of the (first) standard parallel.
    pub lat: Axis,
    pub lon: Axis,
    /// The azimuth of the central line, or the second standard parallel.
    pub azimuth: Axis,
    pub scale: Axis,
    /// The latitude of false origin with two parallels, in 10^-12 degrees; 0 for the other kinds.
    pub origin: i128,
    /// The false easting, in millimetres.
    pub easting: i64,
    /// The false northing, in millimetres.
    pub northing: i64,
}

impl Family {
    /// One of the four axes.
    pub fn axis(&self, name: AxisName) -> &Axis
        ensures { result.now ≡ axis_of name self.now }
    {
        match name {
            AxisName::Lat => &self.lat,
            AxisName::Lon => &self.lon,
            AxisName::Azimuth => &self.azimuth,
            AxisName::Scale => &self.scale,
        }
    }

    /// The value with this index on an axis, in 10^-12 degrees or in units of 10^-15.
    #[tactic(auto, using(crate::proofs::Valid::number_axis, crate::proofs::Valid::has_axes))]
    pub fn value(&self, name: AxisName, i: u32) -> i128
        requires valid { IsValid self.now }
        requires index { i < (axis_of name self.now).count }
        ensures value { result ≡ value_at (axis_of name self.now) i }
        ensures range { IsValueOn name result }
    {
        value_at(self.axis(name), i)
    }
}
