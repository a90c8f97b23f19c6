ghost use Rattle.std.specs.Prelude.{◌≡◌, IfOk};
ghost use Rattle.ldp_series.specs.Shape.{HasShape};
ghost use Rattle.ldp_tm.specs.TransverseMercator.{transverse_mercator};

use crate::cell::cell_list;
use crate::design::design_list;
use crate::joint::joint_list;
use ldp_series::{Lists, Memory};
use std::alloc::Global;

/// The three lists of the transverse Mercator projection.
///
/// The inputs of the cell list are latitude, longitude (radians, in units of 10^-15) and height
/// over the semi-major axis; its results are the longitude, the cosine of the latitude, three
/// coefficients of the scale factor and the ground factor. The design list gives the central
/// meridian and its scale factor.
pub fn lists(alloc: Global) -> Result<Lists, Memory>
    ensures exact { IfOk result (λ lists. lists ≡ transverse_mercator) }
    ensures cell { IfOk result (λ lists. HasShape 3 6 lists.cell) }
    ensures design { IfOk result (λ lists. HasShape 4 2 lists.design) }
    ensures joint { IfOk result (λ lists. HasShape 8 1 lists.joint) }
{
    let cell = cell_list(alloc)?;
    let design = design_list(alloc)?;
    let joint = joint_list(alloc)?;
    Ok(Lists {
        cell,
        design,
        joint,
    })
}
