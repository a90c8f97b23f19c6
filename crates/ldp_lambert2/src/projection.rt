ghost use Rattle.std.specs.Prelude.{◌≡◌, IfOk};
ghost use Rattle.ldp_series.specs.Shape.{HasShape};
ghost use Rattle.ldp_lambert2.specs.LambertTwo.{lambert_two};

use crate::design::design_list;
use ldp_lambert::{cell_list, joint_list};
use ldp_series::{Lists, Memory};
use std::alloc::Global;

/// The three lists of the Lambert conformal conic projection with two standard parallels.
///
/// The cell list and the joint list are those of the projection with one parallel. The design list
/// takes the first parallel as its latitude and the second as its azimuth, in radians and in units
/// of 10^-15; its results are Snyder's n, the isometric latitude of the first parallel, its m and
/// the scale factor.
pub fn lists(alloc: Global) -> Result<Lists, Memory>
    ensures exact { IfOk result (λ lists. lists ≡ lambert_two) }
    ensures cell { IfOk result (λ lists. HasShape 3 3 lists.cell) }
    ensures design { IfOk result (λ lists. HasShape 4 4 lists.design) }
    ensures joint { IfOk result (λ lists. HasShape 7 1 lists.joint) }
{
    let cell = cell_list(alloc)?;
    let design = design_list(alloc)?;
    let joint = joint_list(alloc)?;
    Ok(Lists {
        cell,
        design,
        joint,
    })
}
