use crate::cut_runs::cut_runs;
use crate::operation::{is_of_one, is_of_two};
use crate::say::{say, say_none, say_some};
use crate::words::numbers;
use anyhow::{Result, bail, ensure};
use ldp_num::{Bench, Fix, ONE, Step, add, div, eta, mul, need, radians, sq, sqrt, sub};

pub fn answer(rt: &(impl Print + AllocGlobal), call: &str, rest: &str) -> Result<()> {
    match call {
        "radians" => say_radians(rt, rest),
        "eta" => say(rt, eta(rest.parse()?)),
        "run" => run(rt, rest),
        "cut_runs" => cut_runs(rt, rest),
        _ => operation(rt, call, rest),
    }
}

fn operation(rt: &impl Print, name: &str, rest: &str) -> Result<()> {
    if is_of_two(name) {
        let [a, b] = numbers::<2>(rest)?;
        return say_some(rt, of_two(name, a, b));
    }
    ensure!(is_of_one(name), "no call of plain numbers");
    let [a] = numbers::<1>(rest)?;
    say_some(rt, of_one(name, a))
}

fn of_two(name: &str, a: Fix, b: Fix) -> Option<i128> {
    match name {
        "add" => add(a.n, b.n),
        "sub" => sub(a.n, b.n),
        "mul" => mul(a.n, b.n),
        _ => div(a.n, b.n),
    }
}

fn of_one(name: &str, a: Fix) -> Option<i128> {
    match name {
        "sq" => sq(a.n),
        "sqrt" => sqrt(a.n),
        _ => need(a.n),
    }
}

fn say_radians(rt: &impl Print, rest: &str) -> Result<()> {
    let [angle] = numbers::<1>(rest)?;
    let turn = 360_000_000_000_000;
    ensure!(
        -turn <= angle.n && angle.n <= turn,
        "an angle is at most a turn"
    );
    say(rt, radians(angle.n))
}

/// √(x - 1) for each of three numbers, over steps that end with 1 / x.
fn run(rt: &(impl Print + AllocGlobal), rest: &str) -> Result<()> {
    let inputs: [Fix; 3] = numbers(rest)?;
    let steps = [
        Step::Input(0),
        Step::Const(ONE),
        Step::Sub(0, 1),
        Step::Sqrt(2),
        Step::Div(1, 0),
    ];
    let mut bench: Bench<Fix> = Bench::with_room(rt.alloc(), 8)?;
    for input in inputs {
        ensure!(bench.room() == 8, "the room of a bench stays");
        if bench.run(&steps, &[input]) {
            say(rt, bench.at(3).n)?;
        } else {
            say_none(rt)?;
        }
    }
    Ok(())
}
