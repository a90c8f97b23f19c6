use crate::show::{answer, named};
use anyhow::{Context, Result, bail, ensure};
use ldp_heights::{HeightFault, HeightReader, Heights, read_heights};
use std::alloc::{AllocError, Global};

/// How a text of heights comes to its reader.
#[derive(Clone, Copy)]
pub enum Fed {
    Whole,
    Bytes,
    /// In two pieces, the first of so many bytes.
    Cut(usize),
}

impl Fed {
    pub fn of_row(rest: &str) -> Result<Fed> {
        Ok(match rest.split_once(' ') {
            Some(("cut", at)) => Fed::Cut(at.parse()?),
            None if rest == "bytes" => Fed::Bytes,
            None if rest == "whole" => Fed::Whole,
            _ => bail!("whole, bytes or cut"),
        })
    }
}

fn read(alloc: Global, text: &[u8], fed: Fed) -> Result<Heights, HeightFault> {
    match fed {
        Fed::Whole => read_heights(alloc, text),
        Fed::Bytes => read_by_bytes(alloc, text),
        Fed::Cut(at) => {
            let (first, last) = text.split_at(at.min(text.len()));
            read_in_two(alloc, first, last)
        }
    }
}

fn read_by_bytes(alloc: Global, text: &[u8]) -> Result<Heights, HeightFault> {
    let mut reader = HeightReader::new(alloc);
    for byte in text {
        reader.feed(&[*byte])?;
    }
    reader.finish()
}

fn read_in_two(alloc: Global, first: &[u8], last: &[u8]) -> Result<Heights, HeightFault> {
    let mut reader = HeightReader::new(alloc);
    reader.feed(first)?;
    reader.feed(last)?;
    reader.finish()
}

/// How many rows and columns a text has, or its first fault.
pub fn size(rt: &(impl Print + AllocGlobal), text: &[u8], fed: Fed) -> Result<()> {
    match read(rt.alloc(), text, fed) {
        Ok(grid) => named(rt, "rows and columns", &(grid.rows(), grid.cols())),
        Err(fault) => answer(rt, &fault),
    }
}

/// The height of a place in millimetres, or its centre: `height ROW COLUMN`, `centre ROW COLUMN`.
pub fn place(
    rt: &(impl Print + AllocGlobal),
    word: &str,
    rest: &str,
    text: &[u8],
    fed: Fed,
) -> Result<()> {
    let (row, column) = rest.split_once(' ').context("a row and a column")?;
    let row = row.parse::<u32>()?;
    let column = column.parse::<u32>()?;
    match read(rt.alloc(), text, fed) {
        Ok(grid) => put_place(rt, word, &grid, row, column),
        Err(_) => bail!("no heights"),
    }
}

fn put_place(rt: &impl Print, word: &str, grid: &Heights, row: u32, column: u32) -> Result<()> {
    ensure!(row < grid.rows(), "no such row");
    ensure!(column < grid.cols(), "no such column");
    if word == "height" {
        answer(rt, &grid.mm(row, column))
    } else {
        answer(rt, &grid.centre(row, column))
    }
}

/// Whether the heights have begun, after the first piece and after the second.
pub fn started(rt: &(impl Print + AllocGlobal), rest: &str, text: &[u8]) -> Result<()> {
    let at = rest.parse::<usize>()?;
    let (first, last) = text.split_at(at.min(text.len()));
    answer(rt, &has_started(rt.alloc(), first, last)?)
}

fn has_started(alloc: Global, first: &[u8], last: &[u8]) -> Result<(bool, bool), AllocError> {
    let mut reader = HeightReader::new(alloc);
    reader.feed(first)?;
    let before = reader.started();
    reader.feed(last)?;
    Ok((before, reader.started()))
}
