ghost use Rattle.std.specs.Prelude.{◌≡◌};
ghost use Rattle.std.specs.Cmp.{IsTotalOrder};
ghost use Rattle.ldp_design.specs.Designs.{design_cmp};

use std::cmp::Ordering;

/// A design: the number of its family, from 1, and its index on each axis, from 0.
#[derive(Clone, Copy, Debug, PartialEq, Eq, PartialOrd, Ord)]
pub struct Design {
    pub family: u16,
    pub lat: u32,
    pub lon: u32,
    pub azimuth: u32,
    pub scale: u32,
}

/// The order of designs: by family, latitude, longitude, azimuth and scale factor.
pub fn order(a: &Design, b: &Design) -> Ordering
    ensures value { result ≡ design_cmp a.now b.now }
    ensures total { IsTotalOrder design_cmp }
{
    a.cmp(b)
}
