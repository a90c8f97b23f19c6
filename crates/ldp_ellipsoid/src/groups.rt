ghost use Rattle.std.specs.Prelude.{◌≡◌, ◌+◌, ◌<◌, ◌≤◌, length, IfOk};
ghost use Rattle.ldp_series.specs.Draft.{HasRoom, Added, Appends};
ghost use Rattle.ldp_ellipsoid.specs.Ellipsoid.{second_eccentricity_squared, axis_ratio, geo};
ghost use Rattle.ldp_ellipsoid.specs.Ellipsoid.{meridian, ground_factor};

use crate::places::Geo;
use ldp_num::ONE;
use ldp_series::{Build, Memory};

/// 1/f, in units of 10^-9.
const INVERSE_FLATTENING: i128 = 298_257_222_101;

/// The square of the first eccentricity, 2f - f², in units of 10^-15, rounded down.
pub(crate) const ECCENTRICITY_SQUARED: i128 = ONE
    * (2 * INVERSE_FLATTENING * 1_000_000_000 - 1_000_000_000_000_000_000)
    / (INVERSE_FLATTENING * INVERSE_FLATTENING);

/// Appends the square of the second eccentricity: 5 steps.
pub fn second_eccentricity_squared(b: &mut Build) -> Result<u16, Memory>
    requires room { HasRoom 5 b.old }
    ensures { IfOk result (Appends second_eccentricity_squared 5 b.old b.new) }
{
    let e2 = b.constant(ECCENTRICITY_SQUARED)?;
    let one = b.whole(1)?;
    let again = b.constant(ECCENTRICITY_SQUARED)?;
    let rest = b.sub(one, again)?;
    let quotient = b.div(e2, rest)?;
    Ok(quotient)
}

/// Appends the semi-minor axis over the semi-major axis: 4 steps.
pub fn axis_ratio(b: &mut Build) -> Result<u16, Memory>
    requires room { HasRoom 4 b.old }
    ensures { IfOk result (Appends axis_ratio 4 b.old b.new) }
{
    let one = b.whole(1)?;
    let e2 = b.constant(ECCENTRICITY_SQUARED)?;
    let rest = b.sub(one, e2)?;
    let root = b.sqrt(rest)?;
    Ok(root)
}

/// Appends sine and cosine of a latitude in radians, and 1 - e² sin²φ: 140 steps.
pub fn geo(b: &mut Build, lat: u16) -> Result<Geo, Memory>
    requires latitude { lat < length b.old.steps }
    requires room { HasRoom 140 b.old }
    ensures ok { IfOk result (λ places. (b.new, places) ≡ geo lat b.old) }
    ensures added { IfOk result (λ places. Added 140 b.old b.new places.w) }
    ensures before { IfOk result (λ places. (places.s < places.w) × (places.c < places.w)) }
{
    let s = b.sin(lat)?;
    let c = b.cos(lat)?;
    let one = b.whole(1)?;
    let e2 = b.constant(ECCENTRICITY_SQUARED)?;
    let s2 = b.sq(s)?;
    let product = b.mul(e2, s2)?;
    let w = b.sub(one, product)?;
    Ok(Geo { s, c, w })
}

/// Appends Snyder's m, the radius of the parallel over the semi-major axis: 2 steps.
pub fn meridian(b: &mut Build, g: Geo) -> Result<u16, Memory>
    requires cosine { g.c < length b.old.steps }
    requires w { g.w < length b.old.steps }
    requires room { HasRoom 2 b.old }
    ensures { IfOk result (Appends (meridian g) 2 b.old b.new) }
{
    let root = b.sqrt(g.w)?;
    let radius = b.div(g.c, root)?;
    Ok(radius)
}

/// Appends the ground factor R / (R + h), from 1 - e² sin²φ and the height over the semi-major
/// axis: 7 steps.
pub fn ground(b: &mut Build, w: u16, eta: u16) -> Result<u16, Memory>
    requires w { w < length b.old.steps }
    requires height { eta < length b.old.steps }
    requires room { HasRoom 7 b.old }
    ensures { IfOk result (Appends (ground_factor w eta) 7 b.old b.new) }
{
    let ratio = axis_ratio(b)?;
    let radius = b.div(ratio, w)?;
    let sum = b.add(radius, eta)?;
    let factor = b.div(radius, sum)?;
    Ok(factor)
}
