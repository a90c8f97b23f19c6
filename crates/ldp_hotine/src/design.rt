ghost use Rattle.std.specs.Prelude.{◌≡◌, IfOk};
ghost use Rattle.ldp_series.specs.Shape.{HasShape};
ghost use Rattle.ldp_hotine.specs.Hotine.{design_list};

use crate::constants::{constant_b, constant_d, relative_a};
use crate::origin::{constant_f, cosine_of_sine, half_difference, natural_origin};
use ldp_ellipsoid::{axis_ratio, geo, isometric};
use ldp_series::{Build, List, Memory};
use std::alloc::Global;

pub(crate) fn design_list(alloc: Global, south: bool) -> Result<List, Memory>
    ensures exact { IfOk result (λ list. list ≡ design_list south) }
    ensures shape { IfOk result (HasShape 4 7) }
{
    let mut build = Build::new(alloc, 4)?;
    let (latitude, longitude, azimuth, scale) = (0, 1, 2, 3);
    let centre = geo(&mut build, latitude)?;
    let qc = isometric(&mut build, centre.s)?;
    let b = constant_b(&mut build, centre.c)?;
    let ratio = axis_ratio(&mut build)?;
    let a = relative_a(&mut build, b, scale, ratio, centre.w)?;
    let d = constant_d(&mut build, b, ratio, centre.c, centre.w)?;
    let f = constant_f(&mut build, south, d)?;
    let g = half_difference(&mut build, f)?;
    let v = build.sin(azimuth)?;
    let sg = build.div(v, d)?;
    let cg = cosine_of_sine(&mut build, sg)?;
    let l0 = natural_origin(&mut build, longitude, b, g, sg, cg)?;
    let list = build.finish(&[b, l0, f, qc, sg, cg, a])?;
    Ok(list)
}
