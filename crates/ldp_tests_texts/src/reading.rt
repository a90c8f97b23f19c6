use crate::heights::Fed;
use crate::{crs, decimal, grids, heights, job, quantity, spelling, tokens, zone};
use anyhow::{Result, bail};

/// Calls the reader of this word over a text.
pub fn ask(rt: &(impl Print + AllocGlobal), word: &str, text: &[u8], fed: Fed) -> Result<()> {
    match word {
        "decimal" => decimal::read(rt, text),
        "longitude" | "latitude" | "scale" | "between" => quantity::read(rt, word, text),
        "whole" | "wide" | "decimals" | "hash" | "lines" | "words" => spelling::ask(rt, word, text),
        "mark" => tokens::unmarked(rt, text),
        "heights" => heights::size(rt, text, fed),
        "zone" => zone::count(rt, text),
        "grids" | "family" | "keys" => grids::ask(rt, word, text),
        "crs" => crs::read(rt, text),
        "job" | "values" | "again" => job::ask(rt, word, text),
        _ => bail!("no such row: {word}"),
    }
}
