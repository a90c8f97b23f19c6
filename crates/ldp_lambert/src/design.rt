ghost use Rattle.std.specs.Prelude.{◌≡◌, IfOk};
ghost use Rattle.ldp_series.specs.Shape.{HasShape};
ghost use Rattle.ldp_lambert.specs.Lambert.{design_list};

use ldp_ellipsoid::{geo, isometric, meridian};
use ldp_series::{Build, List, Memory};
use std::alloc::Global;

pub(crate) fn design_list(alloc: Global) -> Result<List, Memory>
    ensures exact { IfOk result (λ list. list ≡ design_list) }
    ensures shape { IfOk result (HasShape 4 4) }
{
    let mut build = Build::new(alloc, 4)?;
    let (latitude, scale) = (0, 3);
    let parallel = geo(&mut build, latitude)?;
    let m1 = meridian(&mut build, parallel)?;
    let q1 = isometric(&mut build, parallel.s)?;
    let list = build.finish(&[parallel.s, q1, m1, scale])?;
    Ok(list)
}
