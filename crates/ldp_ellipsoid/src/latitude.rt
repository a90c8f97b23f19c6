ghost use Rattle.std.specs.Prelude.{◌≡◌, ◌+◌, ◌<◌, ◌≤◌, length, IfOk};
ghost use Rattle.ldp_series.specs.Draft.{HasRoom, Appends};
ghost use Rattle.ldp_ellipsoid.specs.Ellipsoid.{isometric, hyperbolic_arctangent};

use crate::groups::ECCENTRICITY_SQUARED;
use ldp_series::{Build, Memory};

/// Appends the isometric latitude q, from the sine of the latitude: 103 steps.
pub fn isometric(b: &mut Build, s: u16) -> Result<u16, Memory>
    requires sine { s < length b.old.steps }
    requires room { HasRoom 103 b.old }
    ensures { IfOk result (Appends (isometric s) 103 b.old b.new) }
{
    let sphere = hyperbolic_arctangent(b, s)?;
    let e2 = b.constant(ECCENTRICITY_SQUARED)?;
    let e = b.sqrt(e2)?;
    let t = b.mul(e, s)?;
    let flattening = hyperbolic_arctangent(b, t)?;
    let ellipsoid = b.mul(e, flattening)?;
    let q = b.sub(sphere, ellipsoid)?;
    Ok(q)
}

/// Appends the hyperbolic arctangent: 49 steps.
fn hyperbolic_arctangent(b: &mut Build, x: u16) -> Result<u16, Memory>
    requires x { x < length b.old.steps }
    requires room { HasRoom 49 b.old }
    ensures { IfOk result (Appends (hyperbolic_arctangent x) 49 b.old b.new) }
{
    let one = b.whole(1)?;
    let sum = b.add(one, x)?;
    let one_again = b.whole(1)?;
    let difference = b.sub(one_again, x)?;
    let ratio = b.div(sum, difference)?;
    let logarithm = b.ln(ratio)?;
    let two = b.whole(2)?;
    let half = b.div(logarithm, two)?;
    Ok(half)
}
