ghost use Rattle.std.specs.Prelude.{◌≡◌, ◌+◌, ◌<◌, ◌≤◌, length, IfOk};
ghost use Rattle.ldp_series.specs.Draft.{HasRoom, Appends};
ghost use Rattle.ldp_hotine.specs.Hotine.{by_hemisphere, constant_f, half_difference};
ghost use Rattle.ldp_hotine.specs.Hotine.{cosine_of_sine, natural_origin};

use ldp_series::{Build, Memory};

/// Snyder's F: 5 steps.
pub(crate) fn constant_f(build: &mut Build, south: bool, d: u16) -> Result<u16, Memory>
    requires d { d < length build.old.steps }
    requires room { HasRoom 5 build.old }
    ensures { IfOk result (Appends (constant_f south d) 5 build.old build.new) }
{
    let square = build.sq(d)?;
    let one = build.whole(1)?;
    let rest = build.sub(square, one)?;
    let r = build.sqrt(rest)?;
    let f = by_hemisphere(build, south, d, r)?;
    Ok(f)
}

/// The sum for a centre north of the equator, the difference for one south of it: 1 step.
fn by_hemisphere(build: &mut Build, south: bool, d: u16, r: u16) -> Result<u16, Memory>
    requires d { d < length build.old.steps }
    requires r { r < length build.old.steps }
    requires room { HasRoom 1 build.old }
    ensures { IfOk result (Appends (by_hemisphere south d r) 1 build.old build.new) }
{
    if south {
        let difference = build.sub(d, r)?;
        Ok(difference)
    } else {
        let sum = build.add(d, r)?;
        Ok(sum)
    }
}

/// Half the difference of a number and its reciprocal: 5 steps.
pub(crate) fn half_difference(build: &mut Build, f: u16) -> Result<u16, Memory>
    requires f { f < length build.old.steps }
    requires room { HasRoom 5 build.old }
    ensures { IfOk result (Appends (half_difference f) 5 build.old build.new) }
{
    let one = build.whole(1)?;
    let reciprocal = build.div(one, f)?;
    let difference = build.sub(f, reciprocal)?;
    let two = build.whole(2)?;
    let half = build.div(difference, two)?;
    Ok(half)
}

/// The cosine, at least 0, of an angle from its sine: 4 steps.
pub(crate) fn cosine_of_sine(build: &mut Build, s: u16) -> Result<u16, Memory>
    requires s { s < length build.old.steps }
    requires room { HasRoom 4 build.old }
    ensures { IfOk result (Appends (cosine_of_sine s) 4 build.old build.new) }
{
    let one = build.whole(1)?;
    let square = build.sq(s)?;
    let rest = build.sub(one, square)?;
    let root = build.sqrt(rest)?;
    Ok(root)
}

/// The longitude of the natural origin, in radians: 65 steps.
pub(crate) fn natural_origin(
    build: &mut Build,
    longitude: u16,
    b: u16,
    g: u16,
    sg: u16,
    cg: u16,
) -> Result<u16, Memory>
    requires longitude { longitude < length build.old.steps }
    requires b { b < length build.old.steps }
    requires g { g < length build.old.steps }
    requires sg { sg < length build.old.steps }
    requires cg { cg < length build.old.steps }
    requires room { HasRoom 65 build.old }
    ensures { IfOk result (Appends (natural_origin longitude b g sg cg) 65 build.old build.new) }
{
    let tangent = build.div(sg, cg)?;
    let x = build.mul(g, tangent)?;
    let cosine = cosine_of_sine(build, x)?;
    let y = build.div(x, cosine)?;
    let angle = build.atan(y)?;
    let shift = build.div(angle, b)?;
    let origin = build.sub(longitude, shift)?;
    Ok(origin)
}
