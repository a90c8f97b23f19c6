ghost use Rattle.std.specs.Prelude.{◌≡◌, IfOk};
ghost use Rattle.ldp_series.specs.Shape.{HasShape};
ghost use Rattle.ldp_hotine.specs.Hotine.{hotine};

use crate::cell::cell_list;
use crate::design::design_list;
use crate::joint::joint_list;
use ldp_series::{Lists, Memory};
use std::alloc::Global;

/// The three lists of the Hotine oblique Mercator projection, for centres south of the equator or
/// for those north of it.
///
/// The inputs of the cell list are latitude, longitude (radians, in units of 10^-15) and height
/// over the semi-major axis; its results are the longitude, the isometric latitude, Snyder's m and
/// the ground factor. The design list takes latitude and longitude of the centre and the azimuth
/// there in radians; its results are B, the longitude of the natural origin, F, the isometric
/// latitude of the centre, sine and cosine of γ0, and A over the semi-major axis.
pub fn lists(alloc: Global, south: bool) -> Result<Lists, Memory>
    ensures exact { IfOk result (λ lists. lists ≡ hotine south) }
    ensures cell { IfOk result (λ lists. HasShape 3 4 lists.cell) }
    ensures design { IfOk result (λ lists. HasShape 4 7 lists.design) }
    ensures joint { IfOk result (λ lists. HasShape 11 1 lists.joint) }
{
    let cell = cell_list(alloc)?;
    let design = design_list(alloc, south)?;
    let joint = joint_list(alloc)?;
    Ok(Lists {
        cell,
        design,
        joint,
    })
}
