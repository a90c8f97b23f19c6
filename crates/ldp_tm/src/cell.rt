ghost use Rattle.std.specs.Prelude.{◌≡◌, IfOk};
ghost use Rattle.ldp_series.specs.Shape.{HasShape};
ghost use Rattle.ldp_tm.specs.TransverseMercator.{cell_list};

use crate::coefficients::{fourth_power, second_power, sixth_power, tangent_squared};
use ldp_ellipsoid::{geo, ground, second_eccentricity_squared};
use ldp_series::{Build, List, Memory};
use std::alloc::Global;

pub(crate) fn cell_list(alloc: Global) -> Result<List, Memory>
    ensures exact { IfOk result (λ list. list ≡ cell_list) }
    ensures shape { IfOk result (HasShape 3 6) }
{
    let mut build = Build::new(alloc, 3)?;
    let (latitude, longitude, height) = (0, 1, 2);
    let g = geo(&mut build, latitude)?;
    let t = tangent_squared(&mut build, g.s, g.c)?;
    let u = second_eccentricity_squared(&mut build)?;
    let square = build.sq(g.c)?;
    let c = build.mul(u, square)?;
    let a1 = second_power(&mut build, c)?;
    let a2 = fourth_power(&mut build, t, c, u)?;
    let a3 = sixth_power(&mut build, t)?;
    let factor = ground(&mut build, g.w, height)?;
    let list = build.finish(&[longitude, g.c, a1, a2, a3, factor])?;
    Ok(list)
}
