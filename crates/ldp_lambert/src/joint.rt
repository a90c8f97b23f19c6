ghost use Rattle.std.specs.Prelude.{◌≡◌, ◌+◌, ◌<◌, ◌≤◌, length, IfOk};
ghost use Rattle.ldp_series.specs.Draft.{HasRoom, Appends};
ghost use Rattle.ldp_series.specs.Shape.{HasShape};
ghost use Rattle.ldp_lambert.specs.Lambert.{within_domain, joint_list};

use ldp_num::ONE;
use ldp_series::{Build, List, Memory};
use std::alloc::Global;

/// 1/4, in units of 10^-15: the greatest square of a difference of isometric latitudes.
const DOMAIN: i128 = ONE / 4;

/// The joint list: the linear distortion, from the results of a design list, n, q1, m1 and the
/// scale factor, and then those of the cell list.
pub fn joint_list(alloc: Global) -> Result<List, Memory>
    ensures exact { IfOk result (λ list. list ≡ joint_list) }
    ensures shape { IfOk result (HasShape 7 1) }
{
    let mut build = Build::new(alloc, 7)?;
    let (n, q1, m1, scale) = (0, 1, 2, 3);
    let (m, q, factor) = (4, 5, 6);
    let d = build.sub(q1, q)?;
    let _within = within_domain(&mut build, d)?;
    let x = build.mul(n, d)?;
    let y = build.exp(x)?;
    let ratio = build.div(m1, m)?;
    let scaled = build.mul(scale, ratio)?;
    let k = build.mul(scaled, y)?;
    let product = build.mul(k, factor)?;
    let one = build.whole(1)?;
    let distortion = build.sub(product, one)?;
    let list = build.finish(&[distortion])?;
    Ok(list)
}

/// The stated domain: 4 steps.
fn within_domain(build: &mut Build, d: u16) -> Result<u16, Memory>
    requires d { d < length build.old.steps }
    requires room { HasRoom 4 build.old }
    ensures { IfOk result (Appends (within_domain d) 4 build.old build.new) }
{
    let domain = build.constant(DOMAIN)?;
    let square = build.sq(d)?;
    let rest = build.sub(domain, square)?;
    let within = build.need(rest)?;
    Ok(within)
}
