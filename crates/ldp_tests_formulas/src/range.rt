use crate::operation::{is_of_one, is_of_two, of_one, of_two};
use crate::say::{say_each, say_none};
use crate::words::numbers;
use anyhow::{Result, ensure};
use ldp_num::{Bench, Fix, Step};
use ldp_range::{Range, hull, sharp};

pub fn answer(rt: &(impl Print + AllocGlobal), call: &str, rest: &str) -> Result<()> {
    match call {
        "absolute" => absolute(rt, rest),
        "run" => run(rt, rest),
        _ => operation(rt, call, rest),
    }
}

pub fn from_to(lo: Fix, hi: Fix) -> Range {
    hull(sharp(lo.n), sharp(hi.n))
}

fn operation(rt: &impl Print, name: &str, rest: &str) -> Result<()> {
    if is_of_two(name) {
        let [lo, hi, low, high] = numbers::<4>(rest)?;
        return say_range(rt, of_two(name, from_to(lo, hi), from_to(low, high)));
    }
    ensure!(is_of_one(name), "no call of ranges");
    let [lo, hi] = numbers::<2>(rest)?;
    say_range(rt, of_one(name, from_to(lo, hi)))
}

pub fn say_range(rt: &impl Print, range: Option<Range>) -> Result<()> {
    match range {
        Some(range) => say_each(rt, &[range.lo(), range.hi()]),
        None => say_none(rt),
    }
}

/// The least and the greatest absolute value.
fn absolute(rt: &impl Print, rest: &str) -> Result<()> {
    let [lo, hi] = numbers::<2>(rest)?;
    let range = from_to(lo, hi);
    say_each(rt, &[range.low_abs(), range.high_abs()])
}

/// x * x - x in two ranges, one after the other.
fn run(rt: &(impl Print + AllocGlobal), rest: &str) -> Result<()> {
    let [lo, hi, low, high] = numbers::<4>(rest)?;
    let mut bench: Bench<Range> = Bench::with_room(rt.alloc(), 3)?;
    for range in [from_to(lo, hi), from_to(low, high)] {
        ensure!(bench.room() == 3, "the room of a bench stays");
        let steps = [Step::Input(0), Step::Mul(0, 0), Step::Sub(1, 0)];
        ensure!(bench.run(&steps, &[range]), "each step is defined");
        say_range(rt, Some(bench.at(2)))?;
    }
    Ok(())
}
