use crate::words::numbers;
use anyhow::{Result, bail};
use ldp_num::{Fix, ONE};

/// Prints a number as a script has it.
pub fn say(rt: &impl Print, number: i128) -> Result<()> {
    if number != 0 && number % ONE == 0 {
        print!(rt; " {}e15", number / ONE)?;
    } else {
        print!(rt; " {number}")?;
    }
    Ok(())
}

pub fn say_some(rt: &impl Print, number: Option<i128>) -> Result<()> {
    match number {
        Some(number) => say(rt, number),
        None => say_none(rt),
    }
}

pub fn say_none(rt: &impl Print) -> Result<()> {
    print!(rt; " none")?;
    Ok(())
}

pub fn say_each(rt: &impl Print, numbers: &[i128]) -> Result<()> {
    for number in numbers {
        say(rt, *number)?;
    }
    Ok(())
}

/// Says that a number is between two others, or which it is.
pub fn say_within(rt: &impl Print, number: i128, low: i128, high: i128) -> Result<()> {
    if low <= number && number <= high {
        print!(rt; " within")?;
        return Ok(());
    }
    say(rt, number)
}

/// Says of the result with a name that it is between the bounds, or which it is.
pub fn say_named(
    rt: &impl Print,
    names: &[&str],
    results: &[Fix],
    wanted: &str,
    bounds: &str,
) -> Result<()> {
    let [low, high] = numbers::<2>(bounds)?;
    for (name, result) in names.iter().zip(results) {
        if *name == wanted {
            return say_within(rt, result.n, low.n, high.n);
        }
    }
    bail!("no such result")
}
