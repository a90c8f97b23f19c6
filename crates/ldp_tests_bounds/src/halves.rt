ghost use Rattle.std.specs.Prelude.{IfOk};
ghost use Rattle.ldp_design.specs.Boxes.{LiesIn};

use anyhow::{Result, ensure};
use ldp_design::{Design, DesignBox, Grids, split, whole};

/// All designs of a family.
pub fn all_of(grids: &Grids, family: u16) -> Result<DesignBox>
    ensures { IfOk result (LiesIn grids.now.families) }
{
    ensure!(1 <= family, "families are numbered from 1");
    ensure!(family <= grids.families(), "no such family: {family}");
    Ok(whole(grids, family))
}

/// The first design of a box.
pub fn first_of(b: &DesignBox) -> Design {
    Design {
        family: b.family,
        lat: b.lat.lo,
        lon: b.lon.lo,
        azimuth: b.azimuth.lo,
        scale: b.scale.lo,
    }
}

/// The high part of a box or the low one, or the box where it has one design.
pub fn half_of(grids: &Grids, b: &DesignBox, high: bool) -> DesignBox
    requires { LiesIn grids.now.families b.now }
    ensures { LiesIn grids.now.families result }
{
    match split(grids, b) {
        Some((low_part, high_part)) => { if high { high_part } else { low_part } }
        None => *b,
    }
}

/// A box halved so many times.
pub fn halved(grids: &Grids, b: &DesignBox, high: bool, times: u32) -> DesignBox
    requires { LiesIn grids.now.families b.now }
    ensures { LiesIn grids.now.families result }
{
    let mut narrow = *b;
    for _ in 0..times {
        narrow = half_of(grids, &narrow, high);
    }
    narrow
}
