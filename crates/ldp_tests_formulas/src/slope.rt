use crate::operation::{is_of_one, is_of_two, of_one, of_two};
use crate::range::{from_to, say_range};
use crate::say::{say_each, say_none};
use crate::words::numbers;
use anyhow::{Result, ensure};
use ldp_centred::{Known, Slope};
use ldp_num::{Bench, Num, Step};
use ldp_range::{Range, sharp};

pub fn answer(rt: &(impl Print + AllocGlobal), call: &str, rest: &str) -> Result<()> {
    match call {
        "input" => input(rt, rest),
        "run" => run(rt, rest),
        _ => operation(rt, call, rest),
    }
}

/// The azimuth over a range.
fn input(rt: &impl Print, rest: &str) -> Result<()> {
    let [lo, hi] = numbers::<2>(rest)?;
    say_slope(rt, Slope::input(from_to(lo, hi), 2))
}

/// An operation at x y and x + y, for a latitude x from a to b and a longitude y from c to d; one of
/// one value at x y. With the least absolute value over the box.
fn operation(rt: &impl Print, name: &str, rest: &str) -> Result<()> {
    let [a, b, c, d] = numbers::<4>(rest)?;
    let (lat, lon) = (from_to(a, b), from_to(c, d));
    let (x, y) = (Slope::input(lat, 0), Slope::input(lon, 1));
    let (Some(product), Some(sum)) = (x.mul(y), x.add(y)) else {
        return say_none(rt);
    };
    ensure!(is_of_two(name) || is_of_one(name), "no call of slopes");
    let result = if is_of_two(name) {
        of_two(name, product, sum)
    } else {
        of_one(name, product)
    };
    match result {
        Some(slope) => say_with_lowest(rt, slope, &[lat, lon, sharp(0), sharp(0)]),
        None => say_none(rt),
    }
}

/// x - x x over a range of the latitude.
fn run(rt: &(impl Print + AllocGlobal), rest: &str) -> Result<()> {
    let [lo, hi] = numbers::<2>(rest)?;
    let lat = from_to(lo, hi);
    let mut bench: Bench<Slope> = Bench::with_room(rt.alloc(), 3)?;
    ensure!(
        bench.room() == 3,
        "a bench has the room that it was made with"
    );
    ensure!(
        bench.run(
            &[Step::Input(0), Step::Sq(0), Step::Sub(0, 1)],
            &[Slope::input(lat, 0)],
        ),
        "each step is defined"
    );
    say_with_lowest(rt, bench.at(2), &[lat, sharp(0), sharp(0), sharp(0)])
}

fn say_with_lowest(rt: &impl Print, slope: Slope, inputs: &[Range; 4]) -> Result<()> {
    say_slope(rt, slope)?;
    print!(rt; ", lowest")?;
    say_each(rt, &[slope.lowest(inputs)])
}

fn say_slope(rt: &impl Print, slope: Slope) -> Result<()> {
    say_range(rt, Some(slope.range()))?;
    match slope.known() {
        Some(known) => say_known(rt, known),
        None => Ok(()),
    }
}

fn say_known(rt: &impl Print, known: Known) -> Result<()> {
    print!(rt; ", centre")?;
    say_each(rt, &[known.centre, known.error])?;
    print!(rt; ", slopes")?;
    let slopes = known.slopes;
    say_range(rt, Some(slopes.latitude))?;
    say_range(rt, Some(slopes.longitude))?;
    say_range(rt, Some(slopes.azimuth))?;
    say_range(rt, Some(slopes.scale))
}
