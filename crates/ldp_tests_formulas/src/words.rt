use anyhow::{Context, Result, ensure};
use ldp_num::{Fix, LIMIT, ONE};

/// The word before the first blank, and what follows that.
pub fn split(text: &str) -> (&str, &str) {
    text.split_once(' ').unwrap_or((text, ""))
}

/// What stands before the colon, and what stands behind.
pub fn halves(text: &str) -> Result<(&str, &str)> {
    text.split_once(" : ").context("a colon is wanted")
}

/// A number in units of 10^-15, or as `3e15`.
pub fn number(word: &str) -> Result<Fix> {
    let n = match word.strip_suffix("e15") {
        Some(ones) => i128::from(ones.parse::<i32>()?) * ONE,
        None => word.parse()?,
    };
    ensure!(-LIMIT <= n && n <= LIMIT, "a number is at most 10^19 units");
    Ok(Fix { n })
}

/// So many numbers, and no more.
pub fn numbers<const COUNT: usize>(text: &str) -> Result<[Fix; COUNT]> {
    let mut numbers = [Fix { n: 0 }; COUNT];
    let mut rest = text;
    for slot in &mut numbers {
        let (word, after) = split(rest);
        *slot = number(word)?;
        rest = after;
    }
    ensure!(rest.is_empty(), "fewer numbers are wanted");
    Ok(numbers)
}
