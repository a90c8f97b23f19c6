ghost use Rattle.std.specs.Prelude.{◌≡◌, ◌+◌, ◌<◌, ◌≤◌, length, IfOk};
ghost use Rattle.ldp_series.specs.Draft.{HasRoom, Appends};
ghost use Rattle.ldp_series.specs.Shape.{HasShape};
ghost use Rattle.ldp_tm.specs.TransverseMercator.{within_domain, scale_ratio, joint_list};

use ldp_num::ONE;
use ldp_series::{Build, List, Memory};
use std::alloc::Global;

/// 1/64, in units of 10^-15: the greatest square of a difference of longitudes, in radians.
const DOMAIN: i128 = ONE / 64;

pub(crate) fn joint_list(alloc: Global) -> Result<List, Memory>
    ensures exact { IfOk result (λ list. list ≡ joint_list) }
    ensures shape { IfOk result (HasShape 8 1) }
{
    let mut build = Build::new(alloc, 8)?;
    let (central_meridian, scale) = (0, 1);
    let (longitude, cosine, a1, a2, a3, factor) = (2, 3, 4, 5, 6, 7);
    let d = build.sub(longitude, central_meridian)?;
    let _within = within_domain(&mut build, d)?;
    let a = build.mul(d, cosine)?;
    let z = build.sq(a)?;
    let p = scale_ratio(&mut build, z, a1, a2, a3)?;
    let k = build.mul(scale, p)?;
    let product = build.mul(k, factor)?;
    let one = build.whole(1)?;
    let distortion = build.sub(product, one)?;
    let list = build.finish(&[distortion])?;
    Ok(list)
}

/// The stated domain: 4 steps.
fn within_domain(build: &mut Build, d: u16) -> Result<u16, Memory>
    requires d { d < length build.old.steps }
    requires room { HasRoom 4 build.old }
    ensures { IfOk result (Appends (within_domain d) 4 build.old build.new) }
{
    let domain = build.constant(DOMAIN)?;
    let square = build.sq(d)?;
    let rest = build.sub(domain, square)?;
    let within = build.need(rest)?;
    Ok(within)
}

/// The scale factor over that of the central meridian, from A² and the coefficients: 7 steps.
fn scale_ratio(build: &mut Build, z: u16, a1: u16, a2: u16, a3: u16) -> Result<u16, Memory>
    requires z { z < length build.old.steps }
    requires a1 { a1 < length build.old.steps }
    requires a2 { a2 < length build.old.steps }
    requires a3 { a3 < length build.old.steps }
    requires room { HasRoom 7 build.old }
    ensures { IfOk result (Appends (scale_ratio z a1 a2 a3) 7 build.old build.new) }
{
    let one = build.whole(1)?;
    let sixth = build.mul(z, a3)?;
    let inner = build.add(a2, sixth)?;
    let fourth = build.mul(z, inner)?;
    let outer = build.add(a1, fourth)?;
    let second = build.mul(z, outer)?;
    let ratio = build.add(one, second)?;
    Ok(ratio)
}
