ghost use Rattle.std.specs.Prelude.{◌≡◌, Some};
ghost use Rattle.ldp_design.specs.Families.{IsValid};
ghost use Rattle.ldp_design.specs.Designs.{IsAdmitted, IsDesignOf};
ghost use Rattle.ldp_wkt2.specs.Values.{IsCrs, crs_at, crs_of};

use ldp_design::{AxisName, Design, Family, Grids, Kind};

/// The coordinate reference system of a design: its projection of GRS 80, with no name of its own.
#[derive(Clone, Copy, Debug, PartialEq, Eq)]
pub struct Crs {
    pub kind: Kind,
    /// The latitude of origin, of the centre, or of the first standard parallel, in 10^-12 degrees.
    pub lat: i128,
    /// In 10^-12 degrees.
    pub lon: i128,
    /// The azimuth of the central line, or the second standard parallel, in 10^-12 degrees; 0 for
    /// the kinds that have neither.
    pub azimuth: i128,
    /// In 10^-15.
    pub scale: i128,
    /// The latitude of false origin with two parallels, in 10^-12 degrees; 0 for the other kinds.
    pub origin: i128,
    /// The false easting, in millimetres.
    pub easting: i64,
    /// The false northing, in millimetres.
    pub northing: i64,
}

/// The coordinate reference system of a design. Takes no memory.
pub fn crs_of(grids: &Grids, d: &Design) -> Crs
    requires { IsAdmitted grids.now.families d.now }
    ensures value { crs_of grids.now.families d.now ≡ Some result }
    ensures range { IsCrs result }
{
    family_crs(grids.family(d.family), d)
}

fn family_crs(family: &Family, d: &Design) -> Crs
    requires valid { IsValid family.now }
    requires within { IsDesignOf family.now d.now }
    ensures { result ≡ crs_at family.now d.now }
{
    Crs {
        kind: family.kind,
        lat: family.value(AxisName::Lat, d.lat),
        lon: family.value(AxisName::Lon, d.lon),
        azimuth: family.value(AxisName::Azimuth, d.azimuth),
        scale: family.value(AxisName::Scale, d.scale),
        origin: family.origin,
        easting: family.easting,
        northing: family.northing,
    }
}
