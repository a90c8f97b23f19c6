ghost use Rattle.std.specs.Prelude.{◌≡◌, ◌+◌, ◌<◌, ◌≤◌, length, IfOk};
ghost use Rattle.ldp_series.specs.Draft.{HasRoom, Appends};
ghost use Rattle.ldp_tm.specs.TransverseMercator.{tangent_squared, second_power, fourth_power};
ghost use Rattle.ldp_tm.specs.TransverseMercator.{sixth_power};

use ldp_num::ONE;
use ldp_series::{Build, Memory};

/// 61/720, -148/720 and 16/720, in units of 10^-15, rounded down: a quotient below 0 is rounded
/// toward 0, so 1 is taken away.
const SIXTH_POWER: [i128; 3] = [61 * ONE / 720, -148 * ONE / 720 - 1, 16 * ONE / 720];

/// T: 2 steps.
pub(crate) fn tangent_squared(build: &mut Build, sine: u16, cosine: u16) -> Result<u16, Memory>
    requires sine { sine < length build.old.steps }
    requires cosine { cosine < length build.old.steps }
    requires room { HasRoom 2 build.old }
    ensures { IfOk result (Appends (tangent_squared sine cosine) 2 build.old build.new) }
{
    let tangent = build.div(sine, cosine)?;
    let square = build.sq(tangent)?;
    Ok(square)
}

/// The coefficient of A²: 4 steps.
pub(crate) fn second_power(build: &mut Build, c: u16) -> Result<u16, Memory>
    requires c { c < length build.old.steps }
    requires room { HasRoom 4 build.old }
    ensures { IfOk result (Appends (second_power c) 4 build.old build.new) }
{
    let one = build.whole(1)?;
    let sum = build.add(one, c)?;
    let two = build.whole(2)?;
    let quotient = build.div(sum, two)?;
    Ok(quotient)
}

/// The coefficient of A⁴: 15 steps.
pub(crate) fn fourth_power(build: &mut Build, t: u16, c: u16, u: u16) -> Result<u16, Memory>
    requires t { t < length build.old.steps }
    requires c { c < length build.old.steps }
    requires u { u < length build.old.steps }
    requires room { HasRoom 15 build.old }
    ensures { IfOk result (Appends (fourth_power t c u) 15 build.old build.new) }
{
    let five = build.whole(5)?;
    let four = build.whole(4)?;
    let t_part = build.mul(t, four)?;
    let left = build.sub(five, t_part)?;
    let forty_two = build.whole(42)?;
    let thirteen = build.whole(13)?;
    let c_part = build.mul(c, thirteen)?;
    let inner = build.add(forty_two, c_part)?;
    let right = build.mul(c, inner)?;
    let sum = build.add(left, right)?;
    let twenty_eight = build.whole(28)?;
    let u_part = build.mul(u, twenty_eight)?;
    let numerator = build.sub(sum, u_part)?;
    let twenty_four = build.whole(24)?;
    let quotient = build.div(numerator, twenty_four)?;
    Ok(quotient)
}

/// The coefficient of A⁶: 7 steps.
pub(crate) fn sixth_power(build: &mut Build, t: u16) -> Result<u16, Memory>
    requires t { t < length build.old.steps }
    requires room { HasRoom 7 build.old }
    ensures { IfOk result (Appends (sixth_power t) 7 build.old build.new) }
{
    let place = build.poly(t, &SIXTH_POWER)?;
    Ok(place)
}
