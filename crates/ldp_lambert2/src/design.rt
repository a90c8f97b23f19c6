ghost use Rattle.std.specs.Prelude.{◌≡◌, ◌<◌, length, IfOk};
ghost use Rattle.ldp_series.specs.Draft.{HasRoom, Appends};
ghost use Rattle.ldp_series.specs.Shape.{HasShape};
ghost use Rattle.ldp_lambert2.specs.LambertTwo.{within_domain, cone_constant, design_list};

use ldp_ellipsoid::{geo, isometric, meridian};
use ldp_num::ONE;
use ldp_series::{Build, List, Memory};
use std::alloc::Global;

/// 1/128, in units of 10^-15: the least difference of the isometric latitudes of the parallels.
const DOMAIN: i128 = ONE / 128;

pub(crate) fn design_list(alloc: Global) -> Result<List, Memory>
    ensures exact { IfOk result (λ list. list ≡ design_list) }
    ensures shape { IfOk result (HasShape 4 4) }
{
    let mut build = Build::new(alloc, 4)?;
    let (latitude, azimuth, scale) = (0, 2, 3);
    let first = geo(&mut build, latitude)?;
    let m1 = meridian(&mut build, first)?;
    let q1 = isometric(&mut build, first.s)?;
    let second = geo(&mut build, azimuth)?;
    let m2 = meridian(&mut build, second)?;
    let q2 = isometric(&mut build, second.s)?;
    let n = cone_constant(&mut build, m1, q1, m2, q2)?;
    let list = build.finish(&[n, q1, m1, scale])?;
    Ok(list)
}

/// Appends Snyder's n, from m and the isometric latitude of each parallel: 48 steps.
fn cone_constant(build: &mut Build, m1: u16, q1: u16, m2: u16, q2: u16) -> Result<u16, Memory>
    requires m1 { m1 < length build.old.steps }
    requires q1 { q1 < length build.old.steps }
    requires m2 { m2 < length build.old.steps }
    requires q2 { q2 < length build.old.steps }
    requires room { HasRoom 48 build.old }
    ensures { IfOk result (Appends (cone_constant m1 q1 m2 q2) 48 build.old build.new) }
{
    let d = build.sub(q2, q1)?;
    let _within = within_domain(build, d)?;
    let ratio = build.div(m1, m2)?;
    let logarithm = build.ln(ratio)?;
    let n = build.div(logarithm, d)?;
    Ok(n)
}

/// Appends the stated domain: 3 steps.
fn within_domain(build: &mut Build, d: u16) -> Result<u16, Memory>
    requires d { d < length build.old.steps }
    requires room { HasRoom 3 build.old }
    ensures { IfOk result (Appends (within_domain d) 3 build.old build.new) }
{
    let domain = build.constant(DOMAIN)?;
    let rest = build.sub(d, domain)?;
    let within = build.need(rest)?;
    Ok(within)
}
