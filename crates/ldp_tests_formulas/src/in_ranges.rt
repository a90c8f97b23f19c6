use anyhow::{Result, ensure};
use ldp_num::{Bench, Fix, MOST_STEPS};
use ldp_range::{Range, sharp};
use ldp_series::{List, Lists};
use std::alloc::Global;

/// The ends of the distortion of a design at a cell, from the lists over ranges of equal ends; none
/// where it is undefined.
pub fn distortion_in_ranges(
    alloc: Global,
    lists: &Lists,
    [lat, lon, azimuth, scale]: [Fix; 4],
    [cell_lat, cell_lon, height]: [Fix; 3],
) -> Result<(Option<i128>, Option<i128>)> {
    let design = [sharp(lat.n), sharp(lon.n), sharp(azimuth.n), sharp(scale.n)];
    let cell = [sharp(cell_lat.n), sharp(cell_lon.n), sharp(height.n)];
    let mut joint = Vec::new(alloc);
    let defined = push_results(&lists.design, &design, &mut joint)?
        && push_results(&lists.cell, &cell, &mut joint)?;
    if !defined {
        return Ok((None, None));
    }
    ends_of(alloc, &lists.joint, &joint)
}

/// The ends of the first result of a list over ranges.
fn ends_of(alloc: Global, list: &List, inputs: &[Range]) -> Result<(Option<i128>, Option<i128>)> {
    let mut results = Vec::new(alloc);
    push_results(list, inputs, &mut results)?;
    match results.first() {
        Some(range) => Ok((Some(range.lo()), Some(range.hi()))),
        None => Ok((None, None)),
    }
}

/// Appends the results of a list over ranges. Answers whether each step is defined.
fn push_results(list: &List, inputs: &[Range], results: &mut Vec<Range>) -> Result<bool> {
    ensure!(inputs.len() == list.inputs() as usize, "other inputs");
    let mut bench: Bench<Range> = Bench::with_room(*results.allocator(), MOST_STEPS)?;
    if !bench.run(list.steps(), inputs) {
        return Ok(false);
    }
    for place in list.outs() {
        results.push(bench.at(*place))?;
    }
    Ok(true)
}
