//! Runs calls of the low crates that a script names, and prints each line with its answer. The
//! script is the standard input; what must be printed stands in the file `stdout` of this crate,
//! with values from outside and none from a run.
//!
//! A line names a part (`plain`, `range`, `twin`, `laws`, `list`, `series`, `ellipsoid`, `design`)
//! and a call, then numbers, and after a colon what the answer is held against. `grid TEXT` sets
//! the height grid of the lines below it. A line that is empty or begins with # and a blank is a
//! comment. Any other line ends the script with an error.
//!
//! Numbers are in units of 10^-15, also as whole numbers of ones: `3e15`. In a design, angles are
//! in tenths of a degree.
#![tactic(auto)]

mod alike;
mod area;
mod cut_runs;
mod design;
mod ellipsoid;
mod in_ranges;
mod kind;
mod laws;
mod list;
mod operation;
mod plain;
mod range;
mod say;
mod script;
mod series;
mod slope;
mod twin;
mod words;

use std::io::{BufRead, BufReader};

fn main(rt: HostRuntime) -> anyhow::Result<()> {
    let mut grid = Vec::new(rt.alloc());
    for line in BufReader::new(rt.alloc(), rt.reader())?.lines(rt.alloc()) {
        let line = line?;
        print!(rt; "{line}")?;
        script::follow(&rt, &mut grid, line.as_str())?;
        println!(rt; "")?;
    }
    Ok(())
}
