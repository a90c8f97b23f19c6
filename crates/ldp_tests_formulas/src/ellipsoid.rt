ghost use Rattle.std.specs.Prelude.{IfOk};
ghost use Rattle.ldp_series.specs.Shape.{HasShape};

use crate::say::say_named;
use crate::words::{halves, numbers};
use anyhow::{Result, ensure};
use ldp_ellipsoid::{axis_ratio, geo, ground, isometric, meridian, second_eccentricity_squared};
use ldp_num::{Bench, Fix, MOST_STEPS};
use ldp_series::{Build, List, Memory};
use std::alloc::Global;

/// The names of the results, in order.
const NAMES: [&str; 6] = [
    "sine",
    "meridian",
    "isometric",
    "ground",
    "second_eccentricity_squared",
    "axis_ratio",
];

pub fn answer(rt: &(impl Print + AllocGlobal), call: &str, rest: &str) -> Result<()> {
    let (inputs, bounds) = halves(rest)?;
    let results = results(rt.alloc(), numbers(inputs)?)?;
    say_named(rt, &NAMES, &results, call, bounds)
}

fn results(alloc: Global, inputs: [Fix; 2]) -> Result<[Fix; 6]> {
    let list = worked_list(alloc)?;
    let mut bench: Bench<Fix> = Bench::with_room(alloc, MOST_STEPS)?;
    let mut results = [Fix { n: 0 }; 6];
    let defined = list.run_into(&mut bench, &inputs, &mut results);
    ensure!(defined, "the list has a value");
    Ok(results)
}

/// sin φ, m, q, the ground factor, e'² and b/a, from the latitude and the height over the
/// semi-major axis.
fn worked_list(alloc: Global) -> Result<List, Memory>
    ensures { IfOk result (HasShape 2 6) }
{
    let mut build = Build::new(alloc, 2)?;
    let g = geo(&mut build, 0)?;
    let m = meridian(&mut build, g)?;
    let q = isometric(&mut build, g.s)?;
    let factor = ground(&mut build, g.w, 1)?;
    let second = second_eccentricity_squared(&mut build)?;
    let ratio = axis_ratio(&mut build)?;
    build.finish(&[g.s, m, q, factor, second, ratio])
}
