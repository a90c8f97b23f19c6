//! Calls the crates that read and write texts, as a script says, and prints what each call answers.
//! The script is the standard input; what must be printed stands in the file `stdout` of this
//! crate.
//!
//! A row is a word and what it is about. A byte that is no plain text is written as `\n`, `\r`,
//! `\t`, or `\x` with two digits.
//!
//! - `text` begins a text; `| LINE` appends a line to it, `tail PIECE` a piece with no line feed,
//!   and `times N PIECE` a piece N times;
//! - `fed whole`, `fed bytes` and `fed cut N`: heights are read from here on in one piece, byte by
//!   byte, or in two pieces, the first of N bytes;
//! - `WORD TEXT` calls the reader of the word over the text of the row, and `read WORD` over the
//!   text that stands; `reading.rt` has the words;
//! - `question.rt` has the words for questions about the text that stands, and `script.rt` four
//!   more that take words of their own;
//! - `edge` asks of an edge, and `case NAME` is a case of the files and streams of `ldp_io`.
//!
//! A row that is empty or begins with # and a blank is a comment. Any other row ends the script
//! with an error.
#![tactic(auto)]

mod crs;
mod decimal;
mod escape;
mod grids;
mod heights;
mod io;
mod job;
mod piece;
mod quantity;
mod question;
mod reading;
mod script;
mod show;
mod spelling;
mod tokens;
mod zone;

use script::Script;
use std::io::{BufRead, BufReader};

fn main(rt: HostRuntime) -> anyhow::Result<()> {
    let mut script = Script::new(rt.alloc());
    for line in BufReader::new(rt.alloc(), rt.reader())?.lines(rt.alloc()) {
        let line = line?;
        println!(rt; "{line}")?;
        script.follow(&rt, line.as_str())?;
    }
    Ok(())
}
