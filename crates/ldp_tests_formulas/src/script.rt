use crate::words::split;
use crate::{design, ellipsoid, laws, list, plain, range, series, slope, twin};
use anyhow::{Result, bail};

/// Prints the answer to a line, or nothing where it asks nothing.
pub fn follow(rt: &(impl Print + AllocGlobal), grid: &mut Vec<u8>, line: &str) -> Result<()> {
    let (first, rest) = split(line);
    match first {
        "" | "#" => Ok(()),
        "grid" => {
            grid.clear();
            grid.extend_from_slice(rest.as_bytes())?;
            Ok(())
        }
        _ => {
            print!(rt; " =")?;
            answer(rt, grid, first, rest)
        }
    }
}

fn answer(rt: &(impl Print + AllocGlobal), grid: &[u8], part: &str, rest: &str) -> Result<()> {
    let (call, rest) = split(rest);
    match part {
        "plain" => plain::answer(rt, call, rest),
        "range" => range::answer(rt, call, rest),
        "twin" => twin::answer(rt, call, rest),
        "slope" => slope::answer(rt, call, rest),
        "laws" => laws::answer(rt, call),
        "list" => list::answer(rt, call, rest),
        "series" => series::answer(rt, call, rest),
        "ellipsoid" => ellipsoid::answer(rt, call, rest),
        "design" => design::answer(rt, grid, call, rest),
        _ => bail!("no line of a script"),
    }
}
