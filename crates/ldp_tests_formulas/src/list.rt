ghost use Rattle.std.specs.Prelude.{◌≡◌, ◌≤◌, IfOk, length};
ghost use Rattle.ldp_series.specs.Shape.{HasShape};

use crate::range::{from_to, say_range};
use crate::say::{say, say_each, say_none};
use crate::words::numbers;
use anyhow::{Result, bail};
use ldp_num::{Bench, Fix, MOST_STEPS};
use ldp_range::{Range, sharp};
use ldp_series::{Build, List, Memory};
use std::alloc::Global;

pub fn answer(rt: &(impl Print + AllocGlobal), call: &str, rest: &str) -> Result<()> {
    match call {
        "numbers" => over_numbers(rt, rest),
        "range" => in_ranges(rt, rest),
        _ => bail!("no call of lists"),
    }
}

/// x² - x, and x².
fn parabola(alloc: Global) -> Result<List, Memory>
    ensures { IfOk result (HasShape 1 2) }
{
    let mut build = Build::new(alloc, 1)?;
    let square = build.sq(0)?;
    let difference = build.sub(square, 0)?;
    build.finish(&[difference, square])
}

/// The results at two numbers on one bench, each with the first result as it is given alone.
fn over_numbers(rt: &(impl Print + AllocGlobal), rest: &str) -> Result<()> {
    let [first, second] = numbers::<2>(rest)?;
    let list = parabola(rt.alloc())?;
    let mut bench: Bench<Fix> = Bench::with_room(rt.alloc(), MOST_STEPS)?;
    at_number(rt, &list, &mut bench, first)?;
    at_number(rt, &list, &mut bench, second)
}

fn at_number(rt: &impl Print, list: &List, bench: &mut Bench<Fix>, x: Fix) -> Result<()>
    requires shape { HasShape 1 2 list.now }
    requires room { length list.now.steps ≤ bench.old.room }
    ensures { bench.new.room ≡ bench.old.room }
{
    let mut results = [Fix { n: 0 }; 2];
    if list.run_into(bench, &[x], &mut results) {
        say_each(rt, &[results[0].n, results[1].n])?;
    } else {
        say_none(rt)?;
    }
    print!(rt; ", first")?;
    match list.run_first(bench, &[x]) {
        Some(first) => say(rt, first.n),
        None => say_none(rt),
    }
}

/// The same in a range.
fn in_ranges(rt: &(impl Print + AllocGlobal), rest: &str) -> Result<()> {
    let [lo, hi] = numbers::<2>(rest)?;
    let list = parabola(rt.alloc())?;
    let mut bench: Bench<Range> = Bench::with_room(rt.alloc(), MOST_STEPS)?;
    let mut results = [sharp(0); 2];
    let inputs = [from_to(lo, hi)];
    if list.run_into(&mut bench, &inputs, &mut results) {
        say_range(rt, Some(results[0]))?;
        say_range(rt, Some(results[1]))?;
    } else {
        say_none(rt)?;
    }
    print!(rt; ", first")?;
    say_range(rt, list.run_first(&mut bench, &inputs))
}
