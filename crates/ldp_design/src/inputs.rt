ghost use Rattle.std.specs.Prelude.{◌≡◌, Some};
ghost use Rattle.ldp_design.specs.Families.{IsValid};
ghost use Rattle.ldp_design.specs.Designs.{IsAdmitted, IsDesignOf};
ghost use Rattle.ldp_design.specs.Boxes.{LiesIn};
ghost use Rattle.ldp_design.specs.Inputs.{inputs_at, design_inputs, box_inputs};
ghost use Rattle.ldp_design.specs.Laws.{AreNumbers, HaveBetween};

use crate::axis::{angle_at, value_at};
use crate::design::Design;
use crate::design_box::DesignBox;
use crate::family::Family;
use crate::grids::Grids;

/// The four inputs of a design list: angles in radians and the scale factor, as numbers.
#[derive(Clone, Copy, Debug, PartialEq, Eq)]
pub struct Inputs4 {
    pub lat: i128,
    pub lon: i128,
    pub azimuth: i128,
    pub scale: i128,
}

/// The inputs of a design.
pub fn inputs_at(grids: &Grids, d: &Design) -> Inputs4
    requires { IsAdmitted grids.now.families d.now }
    ensures value { design_inputs grids.now.families d.now ≡ Some result }
    ensures numbers { AreNumbers result }
{
    family_inputs(grids.family(d.family), d)
}

/// The inputs at the low and at the high indices of a box.
pub fn inputs_of(grids: &Grids, b: &DesignBox) -> (Inputs4, Inputs4)
    requires { LiesIn grids.now.families b.now }
    ensures value { box_inputs grids.now.families b.now ≡ Some result }
    ensures between { HaveBetween grids.now.families b.now result.0 result.1 }
{
    let family = grids.family(b.family);
    (
        family_inputs(family, &b.first()),
        family_inputs(family, &b.last()),
    )
}

fn family_inputs(family: &Family, d: &Design) -> Inputs4
    requires valid { IsValid family.now }
    requires within { IsDesignOf family.now d.now }
    ensures value { result ≡ inputs_at family.now d.now }
    ensures numbers { AreNumbers result }
{
    Inputs4 {
        lat: angle_at(&family.lat, d.lat),
        lon: angle_at(&family.lon, d.lon),
        azimuth: angle_at(&family.azimuth, d.azimuth),
        scale: value_at(&family.scale, d.scale),
    }
}
