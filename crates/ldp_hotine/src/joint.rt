ghost use Rattle.std.specs.Prelude.{◌≡◌, ◌+◌, ◌<◌, ◌≤◌, length, IfOk};
ghost use Rattle.ldp_series.specs.Draft.{HasRoom, Appends};
ghost use Rattle.ldp_series.specs.Shape.{HasShape};
ghost use Rattle.ldp_hotine.specs.Hotine.{near_centre, near_origin, above_a_sixteenth, joint_list};

use crate::scale::{constant_n, constant_q, scale_factor};
use ldp_num::ONE;
use ldp_series::{Build, List, Memory};
use std::alloc::Global;

/// 1/16, in units of 10^-15.
const SIXTEENTH: i128 = ONE / 16;

pub(crate) fn joint_list(alloc: Global) -> Result<List, Memory>
    ensures exact { IfOk result (λ list. list ≡ joint_list) }
    ensures shape { IfOk result (HasShape 11 1) }
{
    let mut build = Build::new(alloc, 11)?;
    let (b, l0, f, qc, sg, cg, a) = (0, 1, 2, 3, 4, 5, 6);
    let (longitude, q, m, factor) = (7, 8, 9, 10);
    let d = build.sub(q, qc)?;
    let _near = near_centre(&mut build, d)?;
    let difference = build.sub(longitude, l0)?;
    let angle = build.mul(b, difference)?;
    let _within = near_origin(&mut build, angle)?;
    let v = build.sin(angle)?;
    let c = build.cos(angle)?;
    let _ahead = above_a_sixteenth(&mut build, c)?;
    let snyder_q = constant_q(&mut build, f, b, d)?;
    let n = constant_n(&mut build, snyder_q, v, sg, cg)?;
    let k = scale_factor(&mut build, a, m, n, c)?;
    let product = build.mul(k, factor)?;
    let one = build.whole(1)?;
    let distortion = build.sub(product, one)?;
    let list = build.finish(&[distortion])?;
    Ok(list)
}

/// The square of a difference of isometric latitudes is at most 1: 4 steps.
fn near_centre(build: &mut Build, d: u16) -> Result<u16, Memory>
    requires d { d < length build.old.steps }
    requires room { HasRoom 4 build.old }
    ensures { IfOk result (Appends (near_centre d) 4 build.old build.new) }
{
    let one = build.whole(1)?;
    let square = build.sq(d)?;
    let rest = build.sub(one, square)?;
    let within = build.need(rest)?;
    Ok(within)
}

/// The square of an angle from the natural origin is at most 4: 4 steps.
fn near_origin(build: &mut Build, angle: u16) -> Result<u16, Memory>
    requires angle { angle < length build.old.steps }
    requires room { HasRoom 4 build.old }
    ensures { IfOk result (Appends (near_origin angle) 4 build.old build.new) }
{
    let four = build.whole(4)?;
    let square = build.sq(angle)?;
    let rest = build.sub(four, square)?;
    let within = build.need(rest)?;
    Ok(within)
}

/// The cosine is at least 1/16: 3 steps.
fn above_a_sixteenth(build: &mut Build, c: u16) -> Result<u16, Memory>
    requires c { c < length build.old.steps }
    requires room { HasRoom 3 build.old }
    ensures { IfOk result (Appends (above_a_sixteenth c) 3 build.old build.new) }
{
    let sixteenth = build.constant(SIXTEENTH)?;
    let rest = build.sub(c, sixteenth)?;
    let within = build.need(rest)?;
    Ok(within)
}
