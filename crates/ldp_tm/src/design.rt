ghost use Rattle.std.specs.Prelude.{◌≡◌, IfOk};
ghost use Rattle.ldp_series.specs.Shape.{HasShape};
ghost use Rattle.ldp_tm.specs.TransverseMercator.{design_list};

use ldp_series::{Build, List, Memory};
use std::alloc::Global;

/// The places of longitude and scale factor among the inputs of a design.
const LONGITUDE: u16 = 1;

const SCALE: u16 = 3;

pub(crate) fn design_list(alloc: Global) -> Result<List, Memory>
    ensures exact { IfOk result (λ list. list ≡ design_list) }
    ensures shape { IfOk result (HasShape 4 2) }
{
    let build = Build::new(alloc, 4)?;
    let list = build.finish(&[LONGITUDE, SCALE])?;
    Ok(list)
}
