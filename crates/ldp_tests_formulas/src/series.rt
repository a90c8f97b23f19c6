ghost use Rattle.std.specs.Prelude.{IfOk};
ghost use Rattle.ldp_series.specs.Shape.{HasShape};

use crate::say::{say, say_named};
use crate::words::{halves, numbers};
use anyhow::{Result, ensure};
use ldp_num::{Bench, Fix, MOST_STEPS, ONE};
use ldp_series::{Build, List, Memory};
use std::alloc::Global;

/// The names of the results, in order.
const NAMES: [&str; 7] = [
    "sine",
    "cosine",
    "polynomial",
    "root",
    "arctangent",
    "logarithm",
    "exponential",
];

pub fn answer(rt: &(impl Print + AllocGlobal), call: &str, rest: &str) -> Result<()> {
    if call == "room" {
        return say_room(rt);
    }
    let (inputs, bounds) = halves(rest)?;
    let results = results(rt.alloc(), numbers(inputs)?)?;
    say_named(rt, &NAMES, &results, call, bounds)
}

fn results(alloc: Global, inputs: [Fix; 2]) -> Result<[Fix; 7]> {
    let list = worked_list(alloc)?;
    let mut bench: Bench<Fix> = Bench::with_room(alloc, MOST_STEPS)?;
    let mut results = [Fix { n: 0 }; 7];
    let defined = list.run_into(&mut bench, &inputs, &mut results);
    ensure!(defined, "the list has a value");
    Ok(results)
}

/// sin x, cos y, 1 - 2x + x²/2 at 2, √(need (2 + 9 - 2 2)²) / 2, atan 1, ln 1 and exp y.
fn worked_list(alloc: Global) -> Result<List, Memory>
    ensures { IfOk result (HasShape 2 7) }
{
    let mut build = Build::new(alloc, 2)?;
    let sine = build.sin(0)?;
    let cosine = build.cos(1)?;
    let two = build.whole(2)?;
    let polynomial = build.poly(two, &[ONE, -2 * ONE, ONE / 2])?;
    let nine = build.constant(9 * ONE)?;
    let sum = build.add(two, nine)?;
    let product = build.mul(two, two)?;
    let difference = build.sub(sum, product)?;
    let square = build.sq(difference)?;
    let within = build.need(square)?;
    let root = build.sqrt(within)?;
    let half = build.div(root, two)?;
    let one = build.whole(1)?;
    let arctangent = build.atan(one)?;
    let logarithm = build.ln(one)?;
    let exponential = build.exp(1)?;
    build.finish(&[
        sine,
        cosine,
        polynomial,
        half,
        arctangent,
        logarithm,
        exponential,
    ])
}

/// How many steps are taken of those that a list may have, after 3 inputs and an exponential.
fn say_room(rt: &(impl Print + AllocGlobal)) -> Result<()> {
    let mut build = Build::new(rt.alloc(), 3)?;
    let _place = build.exp(0)?;
    say(rt, MOST_STEPS as i128 - build.room() as i128)
}
