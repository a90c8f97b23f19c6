use crate::escape::answer_bytes;
use crate::show::{answer, named};
use anyhow::Result;
use ldp_spelling::{Lines, Words, hash_digits, read_fixed, read_hash, read_trimmed, read_whole};

/// Calls the reader of this word over a text.
pub fn ask(rt: &impl Print, word: &str, text: &[u8]) -> Result<()> {
    match word {
        "decimals" => decimals(rt, text),
        "hash" => hash(rt, text),
        "lines" => lines(rt, text),
        "words" => words(rt, text),
        _ => whole(rt, word, text),
    }
}

/// A whole number from 1 to 4294967295, or `wide` from 0 to 10^19.
fn whole(rt: &impl Print, word: &str, text: &[u8]) -> Result<()> {
    let number = if word == "wide" {
        read_whole(text, 0, 10_000_000_000_000_000_000)
    } else {
        read_whole(text, 1, 4_294_967_295)
    };
    answer(rt, &number)
}

/// A number from -2 to 2 in thousandths, trimmed and with three decimals.
fn decimals(rt: &impl Print, text: &[u8]) -> Result<()> {
    let trimmed = read_trimmed(text, 3, -2000, 2000);
    let fixed = read_fixed(text, 3, -2000, 2000);
    named(rt, "trimmed", &trimmed)?;
    named(rt, "fixed", &fixed)
}

/// A hash: its first and last bytes, and its digits as they are written again.
fn hash(rt: &impl Print, text: &[u8]) -> Result<()> {
    let hash = read_hash(text);
    answer(rt, &hash.map(|bytes| (bytes[0], bytes[31])))?;
    match hash {
        Some(bytes) => answer_bytes(rt, &hash_digits(&bytes)),
        None => Ok(()),
    }
}

/// The lines of a text up to the first that is not ended, and whether the rest is empty.
fn lines(rt: &impl Print, text: &[u8]) -> Result<()> {
    let mut lines = Lines::of_text(text);
    for _ in 0..=text.len() {
        let Some(line) = lines.next() else {
            return named(rt, "none, empty", &lines.is_empty());
        };
        answer_bytes(rt, line)?;
    }
    Ok(())
}

/// The words of a line, each with whether the rest was empty before it.
fn words(rt: &impl Print, line: &[u8]) -> Result<()> {
    let mut words = Words::of_line(line);
    for _ in 0..=line.len() {
        let empty = words.is_empty();
        let Some(word) = words.next() else {
            return named(rt, "none, empty", &empty);
        };
        named(rt, "empty", &empty)?;
        answer_bytes(rt, word)?;
    }
    Ok(())
}
