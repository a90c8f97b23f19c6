use crate::operation::{is_of_one, is_of_two, of_one, of_two};
use crate::range::from_to;
use crate::say::{say_each, say_none};
use crate::words::numbers;
use anyhow::{Result, ensure};
use ldp_num::{Bench, Fix, Step};
use ldp_range::Twin;

pub fn answer(rt: &(impl Print + AllocGlobal), call: &str, rest: &str) -> Result<()> {
    match call {
        "fewest_and_most" => fewest_and_most(rt, rest),
        "run" => run(rt, rest),
        _ => operation(rt, call, rest),
    }
}

/// The twin of the ranges from a to b and from c to d.
fn twin([a, b, c, d]: [Fix; 4]) -> Twin {
    Twin::new(from_to(a, b), from_to(c, d))
}

fn operation(rt: &impl Print, name: &str, rest: &str) -> Result<()> {
    if is_of_two(name) {
        let [a, b, c, d, e, f, g, h] = numbers::<8>(rest)?;
        return say_twin(rt, of_two(name, twin([a, b, c, d]), twin([e, f, g, h])));
    }
    ensure!(is_of_one(name), "no call of twins");
    say_twin(rt, of_one(name, twin(numbers(rest)?)))
}

fn say_twin(rt: &impl Print, twin: Option<Twin>) -> Result<()> {
    let Some(twin) = twin else {
        return say_none(rt);
    };
    let (low, high) = (twin.low(), twin.high());
    say_each(rt, &[low.lo(), low.hi(), high.lo(), high.hi()])
}

/// The bounds of the least absolute values of the ranges of a twin.
fn fewest_and_most(rt: &impl Print, rest: &str) -> Result<()> {
    let twin = twin(numbers(rest)?);
    say_each(rt, &[twin.fewest(), twin.most()])
}

/// x * x - x over the twin of one range.
fn run(rt: &(impl Print + AllocGlobal), rest: &str) -> Result<()> {
    let [lo, hi] = numbers::<2>(rest)?;
    let steps = [Step::Input(0), Step::Mul(0, 0), Step::Sub(1, 0)];
    let mut bench: Bench<Twin> = Bench::with_room(rt.alloc(), 3)?;
    ensure!(
        bench.room() == 3,
        "a bench has the room that it was made with"
    );
    ensure!(
        bench.run(&steps, &[Twin::of_range(from_to(lo, hi))]),
        "each step is defined"
    );
    say_twin(rt, Some(bench.at(2)))
}
