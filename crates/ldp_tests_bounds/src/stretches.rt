use crate::values::Values;
use anyhow::{Result, ensure};
use ldp_sweep::{Sweep, nodes_of, tally_of};
use std::alloc::Global;

/// Prints the first cell of each node into which so many cells are cut.
pub fn print_begins(rt: &(impl Print + AllocGlobal), cells: &str) -> Result<()> {
    let cells: u32 = cells.parse()?;
    ensure!(0 < cells, "no cell");
    for node in &nodes_of(rt.alloc(), cells)? {
        println!(rt; "{}", node.from)?;
    }
    Ok(())
}

/// Prints what is told of values.
pub fn print_tally(rt: &(impl Print + AllocGlobal), values: &str, words: &str) -> Result<()> {
    let (limit, hints) = words.split_once(' ').unwrap_or((words, ""));
    let tolerance = limit_of(limit)?;
    let hints = hints_of(rt.alloc(), hints)?;
    let mut table = table_of(rt.alloc(), values)?;
    print_told(rt, &mut table, &hints, tolerance)
}

fn print_told(
    rt: &impl Print,
    table: &mut Values,
    hints: &[u32],
    tolerance: Option<u64>,
) -> Result<()> {
    match tally_of(table, hints, tolerance) {
        Ok(tally) => {
            let peak = tally.peak;
            println!(rt;
                "{} beyond, {} at cell {}",
                tally.over, peak.value, peak.cell
            )?;
        }
        Err(undefined) => println!(rt; "undefined at cell {}", undefined.cell)?,
    }
    Ok(())
}

fn limit_of(word: &str) -> Result<Option<u64>> {
    Ok(match word {
        "none" => None,
        _ => Some(word.parse()?),
    })
}

fn hints_of(alloc: Global, words: &str) -> Result<Vec<u32>> {
    let mut hints = Vec::new(alloc);
    for word in words.split_whitespace() {
        hints.push(word.parse()?)?;
    }
    Ok(hints)
}

fn table_of(alloc: Global, words: &str) -> Result<Values> {
    let values = values_of(alloc, words)?;
    ensure!(!values.is_empty(), "no value");
    ensure!(values.len() <= 1_000, "too many values");
    Ok(Values::new(alloc, values)?)
}

/// The values that these words name, none where one is undefined.
fn values_of(alloc: Global, words: &str) -> Result<Vec<Option<u128>>> {
    let mut values = Vec::new(alloc);
    for word in words.split_whitespace() {
        values.push(value_of(word)?)?;
    }
    Ok(values)
}

fn value_of(word: &str) -> Result<Option<u128>> {
    Ok(match word {
        "-" => None,
        _ => Some(word.parse()?),
    })
}
