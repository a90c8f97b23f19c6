//! Runs the commands of a script over files in memory, and prints each with what it answers. The
//! script is the standard input; what must be printed stands in the file `stdout` of this crate.
//!
//! A script has these lines; the name of a file ends at the first blank.
//!
//! - `file NAME`, `copy NAME OF` and `load NAME`: a new file, empty, or as another, or as the file
//!   of that name in the folder;
//! - `| TEXT` and `lines N TEXT`: the line TEXT, once or N times, at the end of the newest file,
//!   and `tail TEXT` the same with no line feed;
//! - `line N TEXT` and `keep N`: line N of the newest file, which has one, is TEXT, and the file
//!   has its first N lines alone;
//! - `takes SHELF OUT ERR`: how many bytes the next run's shelf, output and error output take a
//!   call;
//! - `fails shelf N`, `fails out N` and `fails err N`: of the next run, call N, from 0, fails;
//! - `shows N`: of what the next run writes, at most N lines are printed;
//! - `$ WORDS`: a run; `output NAME`: a new file with what the last run wrote.
//!
//! A line that is empty or begins with # and a blank is a comment. Any other line ends the script
//! with an error.
#![tactic(auto)]

mod file;
mod run;
mod script;

use script::Script;
use std::io::{BufRead, BufReader};

fn main(rt: HostRuntime) -> anyhow::Result<()> {
    let mut script = Script::new(rt.alloc());
    for line in BufReader::new(rt.alloc(), rt.reader())?.lines(rt.alloc()) {
        let line = line?;
        println!(rt; "{line}")?;
        script.follow(&rt, line.as_str())?;
    }
    Ok(())
}
