use crate::escape::answer_bytes;
use crate::show::answer;
use anyhow::{Context, Result, ensure};
use ldp_decimal::{Text, read_decimal, write_decimal, write_trimmed};

const LIMIT: i128 = 10_000_000_000_000_000_000;

/// The number of a text, in thousandths.
pub fn read(rt: &impl Print, text: &[u8]) -> Result<()> {
    answer(rt, &read_decimal(text, 3, LIMIT))
}

/// A number is written: `written NUMBER PLACES` or `short NUMBER PLACES`.
pub fn write(rt: &(impl Print + AllocGlobal), word: &str, rest: &str) -> Result<()> {
    let (number, places) = rest.split_once(' ').context("two numbers")?;
    let number = number.parse::<i128>()?;
    let places = places.parse::<u32>()?;
    ensure!(-LIMIT <= number, "too low");
    ensure!(number <= LIMIT, "too large");
    ensure!(places <= 15, "too many places");
    let text = if word == "short" {
        write_trimmed(rt.alloc(), number, places)?
    } else {
        write_decimal(rt.alloc(), number, places)?
    };
    answer_bytes(rt, text.bytes())
}

/// Two pieces are appended to an empty text.
pub fn append(rt: &(impl Print + AllocGlobal), rest: &str) -> Result<()> {
    let (first, second) = rest.split_once(' ').context("two pieces")?;
    let mut text = Text::new(rt.alloc());
    text.push(first.as_bytes())?;
    text.push(second.as_bytes())?;
    answer_bytes(rt, text.bytes())
}
