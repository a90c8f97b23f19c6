ghost use Rattle.std.specs.Prelude.{◌≡◌, IfOk};
ghost use Rattle.ldp_series.specs.Shape.{HasShape};
ghost use Rattle.ldp_lambert.specs.Lambert.{lambert};

use crate::cell::cell_list;
use crate::design::design_list;
use crate::joint::joint_list;
use ldp_series::{Lists, Memory};
use std::alloc::Global;

/// The three lists of the Lambert conformal conic projection with one standard parallel.
///
/// The inputs of the cell list are latitude, longitude (radians, in units of 10^-15) and height
/// over the semi-major axis; its results are Snyder's m, the isometric latitude and the ground
/// factor. The design list gives the sine of the standard parallel, its isometric latitude, its m
/// and the scale factor.
pub fn lists(alloc: Global) -> Result<Lists, Memory>
    ensures exact { IfOk result (λ lists. lists ≡ lambert) }
    ensures cell { IfOk result (λ lists. HasShape 3 3 lists.cell) }
    ensures design { IfOk result (λ lists. HasShape 4 4 lists.design) }
    ensures joint { IfOk result (λ lists. HasShape 7 1 lists.joint) }
{
    let cell = cell_list(alloc)?;
    let design = design_list(alloc)?;
    let joint = joint_list(alloc)?;
    Ok(Lists {
        cell,
        design,
        joint,
    })
}
