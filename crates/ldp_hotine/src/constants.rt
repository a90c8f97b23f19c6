ghost use Rattle.std.specs.Prelude.{◌≡◌, ◌+◌, ◌<◌, ◌≤◌, length, IfOk};
ghost use Rattle.ldp_series.specs.Draft.{HasRoom, Appends};
ghost use Rattle.ldp_hotine.specs.Hotine.{constant_b, relative_a, constant_d};

use ldp_ellipsoid::second_eccentricity_squared;
use ldp_series::{Build, Memory};

/// Snyder's B, from the cosine of the latitude of the centre: 11 steps.
pub(crate) fn constant_b(build: &mut Build, c: u16) -> Result<u16, Memory>
    requires c { c < length build.old.steps }
    requires room { HasRoom 11 build.old }
    ensures { IfOk result (Appends (constant_b c) 11 build.old build.new) }
{
    let one = build.whole(1)?;
    let u = second_eccentricity_squared(build)?;
    let square = build.sq(c)?;
    let fourth = build.sq(square)?;
    let product = build.mul(u, fourth)?;
    let sum = build.add(one, product)?;
    let root = build.sqrt(sum)?;
    Ok(root)
}

/// Snyder's A over the semi-major axis: 3 steps.
pub(crate) fn relative_a(
    build: &mut Build,
    b: u16,
    scale: u16,
    ratio: u16,
    w: u16,
) -> Result<u16, Memory>
    requires b { b < length build.old.steps }
    requires scale { scale < length build.old.steps }
    requires ratio { ratio < length build.old.steps }
    requires w { w < length build.old.steps }
    requires room { HasRoom 3 build.old }
    ensures { IfOk result (Appends (relative_a b scale ratio w) 3 build.old build.new) }
{
    let scaled = build.mul(b, scale)?;
    let product = build.mul(scaled, ratio)?;
    let quotient = build.div(product, w)?;
    Ok(quotient)
}

/// Snyder's D: 4 steps.
pub(crate) fn constant_d(
    build: &mut Build,
    b: u16,
    ratio: u16,
    c: u16,
    w: u16,
) -> Result<u16, Memory>
    requires b { b < length build.old.steps }
    requires ratio { ratio < length build.old.steps }
    requires c { c < length build.old.steps }
    requires w { w < length build.old.steps }
    requires room { HasRoom 4 build.old }
    ensures { IfOk result (Appends (constant_d b ratio c w) 4 build.old build.new) }
{
    let product = build.mul(b, ratio)?;
    let root = build.sqrt(w)?;
    let divisor = build.mul(c, root)?;
    let quotient = build.div(product, divisor)?;
    Ok(quotient)
}
