ghost use Rattle.std.specs.Prelude.{◌≡◌, IfOk};
ghost use Rattle.ldp_series.specs.Shape.{HasShape};
ghost use Rattle.ldp_lambert.specs.Lambert.{cell_list};

use ldp_ellipsoid::{geo, ground, isometric, meridian};
use ldp_series::{Build, List, Memory};
use std::alloc::Global;

/// The cell list: m, the isometric latitude and the ground factor of a cell.
pub fn cell_list(alloc: Global) -> Result<List, Memory>
    ensures exact { IfOk result (λ list. list ≡ cell_list) }
    ensures shape { IfOk result (HasShape 3 3) }
{
    let mut build = Build::new(alloc, 3)?;
    let (latitude, height) = (0, 2);
    let place = geo(&mut build, latitude)?;
    let m = meridian(&mut build, place)?;
    let q = isometric(&mut build, place.s)?;
    let factor = ground(&mut build, place.w, height)?;
    let list = build.finish(&[m, q, factor])?;
    Ok(list)
}
