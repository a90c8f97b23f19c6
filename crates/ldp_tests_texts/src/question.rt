use crate::heights::Fed;
use crate::{crs, heights, job, zone};
use anyhow::Result;

/// Asks of a text of heights, of a zone, of a job, of a coordinate reference system or of families.
pub fn ask(
    rt: &(impl Print + AllocGlobal),
    word: &str,
    rest: &str,
    text: &[u8],
    fed: Fed,
) -> Result<()> {
    match word {
        "height" | "centre" => heights::place(rt, word, rest, text, fed),
        "started" => heights::started(rt, rest, text),
        "has" => zone::has(rt, rest, text),
        "ring" => zone::ring(rt, rest, text),
        "changed" => job::changed(rt, rest, text),
        "line" => crs::changed(rt, rest, text),
        "system" => crs::line(rt, rest, text),
        _ => job::beginnings(rt, text),
    }
}
