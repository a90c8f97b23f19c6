//! Asks for cells, for designs and their boxes, and of the bounder and the sweep over stretches of
//! cells what a script says, over public calls alone, and prints each line of the script and what
//! was answered. The script is the standard input; what must be printed stands in the file `stdout`
//! of this crate.
//!
//! A script has these lines:
//!
//! - `designs`, `zone`, `heights`, `questions` and `values`: that text begins anew, empty;
//! - `| TEXT`: the line TEXT at the end of the text that began last;
//! - `times N TEXT`: the same line N times;
//! - `cells` and `area`: the places of `zone`, or of the whole area, that have a height: row,
//!   column, centre in 10^-12 degrees, and millimetres; and how many have none;
//! - `parts BOX` and `inputs BOX`: where a box of `designs` is cut, and the inputs at both its
//!   ends; `at DESIGN`: those of a design; `longitude FAMILY INDEX` in 10^-12 degrees;
//!   `admits DESIGN`: is it one of `designs`?
//! - `order DESIGN, DESIGN`: how these are ordered, how they are the other way round, and the first
//!   and itself. A design is the number of its family and its index on each axis;
//! - `ask none` and `ask N`: the bounder over stretches of cells answers each line of `questions`,
//!   with no tolerance or with N units of 10^-15; before that, the numbers of families and cells;
//! - `compare none` and `compare N`: each line of `questions` is asked of that bounder and of the
//!   one that looks at every cell;
//! - `cut N`: the first cell of each node into which N cells are cut;
//! - `tally none CELLS` and `tally N CELLS`: what is told of `values`, with no tolerance or with N,
//!   where these cells are looked at first. A value that is `-` is undefined.
//!
//! A question of `ask` is `cells`, `tolerance` or `asked` (how many calls were made), or a word and
//! a box of designs, `FAMILY low N` or `FAMILY high N`: all designs of a family, halved N times,
//! where the low or the high part is kept. Its design is the first in it.
//!
//! - `bound BOX` and `cost BOX`: of the box, and of its design: how many cells are beyond the
//!   tolerance, the absolute distortion, and the cell that has it; or the cell where it is
//!   undefined;
//! - `lower BOX CELL` and `defined BOX CELL`: at a cell, of the box, and of its design;
//! - `single BOX`: has the box one design? `exact BOX`: is its bound the cost of its design?
//! - `holds BOX`: have the N boxes on the way there, all of them, at every cell a least distortion
//!   from 0 to that of this box, whose design is defined there?
//!
//! A question of `compare` is a box: the bounds of the N boxes on the way there, and the cost of
//! its own design, are compared.
//!
//! A line that is empty or begins with # and a blank is a comment. Any other line ends the script
//! with an error.
#![tactic(auto)]

mod answer;
mod ask;
mod bounders;
mod compare;
mod designs;
mod halves;
mod holds;
mod over;
mod place;
mod places;
mod questions;
mod script;
mod stretches;
mod texts;
mod values;

use script::Script;
use std::io::{BufRead, BufReader};

fn main(rt: HostRuntime) -> anyhow::Result<()> {
    let mut script = Script::new(rt.alloc());
    for line in BufReader::new(rt.alloc(), rt.reader())?.lines(rt.alloc()) {
        let line = line?;
        println!(rt; "{line}")?;
        script.follow(&rt, line.as_str())?;
    }
    Ok(())
}
