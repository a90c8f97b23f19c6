ghost use Rattle.std.specs.Prelude.{◌≡◌, ◌+◌, ◌<◌, ◌≤◌, length, IfOk};
ghost use Rattle.ldp_series.specs.Draft.{HasRoom, Appends};
ghost use Rattle.ldp_hotine.specs.Hotine.{constant_q, constant_n, scale_factor};

use crate::origin::half_difference;
use ldp_series::{Build, Memory};

/// Snyder's Q, from F, B and the difference of isometric latitudes: 69 steps.
pub(crate) fn constant_q(build: &mut Build, f: u16, b: u16, d: u16) -> Result<u16, Memory>
    requires f { f < length build.old.steps }
    requires b { b < length build.old.steps }
    requires d { d < length build.old.steps }
    requires room { HasRoom 69 build.old }
    ensures { IfOk result (Appends (constant_q f b d) 69 build.old build.new) }
{
    let x = build.mul(b, d)?;
    let y = build.exp(x)?;
    let q = build.mul(f, y)?;
    Ok(q)
}

/// S cos γ0 + V sin γ0: 8 steps.
pub(crate) fn constant_n(build: &mut Build, q: u16, v: u16, sg: u16, cg: u16) -> Result<u16, Memory>
    requires q { q < length build.old.steps }
    requires v { v < length build.old.steps }
    requires sg { sg < length build.old.steps }
    requires cg { cg < length build.old.steps }
    requires room { HasRoom 8 build.old }
    ensures { IfOk result (Appends (constant_n q v sg cg) 8 build.old build.new) }
{
    let s = half_difference(build, q)?;
    let left = build.mul(s, cg)?;
    let right = build.mul(v, sg)?;
    let sum = build.add(left, right)?;
    Ok(sum)
}

/// The scale factor: 6 steps.
pub(crate) fn scale_factor(build: &mut Build, a: u16, m: u16, n: u16, c: u16) -> Result<u16, Memory>
    requires a { a < length build.old.steps }
    requires m { m < length build.old.steps }
    requires n { n < length build.old.steps }
    requires c { c < length build.old.steps }
    requires room { HasRoom 6 build.old }
    ensures { IfOk result (Appends (scale_factor a m n c) 6 build.old build.new) }
{
    let n_square = build.sq(n)?;
    let c_square = build.sq(c)?;
    let sum = build.add(n_square, c_square)?;
    let root = build.sqrt(sum)?;
    let divisor = build.mul(m, root)?;
    let k = build.div(a, divisor)?;
    Ok(k)
}
