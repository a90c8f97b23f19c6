ghost use Rattle.std.specs.Prelude.{◌<◌, length, IfOk, IfSome};
ghost use Rattle.ldp_design.specs.Limits.{IsTolerance};

use crate::bounders::{ask_plain, compare_both};
use crate::texts::Texts;
use anyhow::{Result, bail, ensure};
use ldp_cells::{Cells, zone_cells};
use ldp_design::{Grids, MOST_TOLERANCE};
use ldp_grids::read_grids;
use ldp_heights::{Heights, read_heights};
use ldp_zone::{Zone, read_zone};
use std::alloc::Global;

/// Prints what is answered to the questions of these texts, by one bounder or by both.
pub fn ask(
    rt: &(impl Print + AllocGlobal),
    texts: &Texts,
    both: bool,
    tolerance: &str,
) -> Result<()> {
    let tolerance = tolerance_of(tolerance)?;
    let cells = cells_of(rt.alloc(), texts)?;
    ask_over(rt, texts, &cells, both, tolerance)
}

fn ask_over(
    rt: &(impl Print + AllocGlobal),
    texts: &Texts,
    cells: &Cells,
    both: bool,
    tolerance: Option<i128>,
) -> Result<()>
    requires cells { 0 < length cells.now.cells }
    requires tolerance { IfSome tolerance IsTolerance }
{
    let grids = grids_of(rt.alloc(), texts.designs.as_str())?;
    println!(rt; "families {}, cells {}", grids.families(), cells.len())?;
    if both {
        compare_both(rt, &grids, cells, tolerance, texts.questions.as_str())
    } else {
        ask_plain(rt, &grids, cells, tolerance, texts.questions.as_str())
    }
}

fn tolerance_of(word: &str) -> Result<Option<i128>>
    ensures { IfOk result (λ tolerance. IfSome tolerance IsTolerance) }
{
    if word == "none" {
        return Ok(None);
    }
    let units = word.parse::<i128>()?;
    ensure!(0 <= units, "no tolerance: {units}");
    ensure!(units <= i128::from(MOST_TOLERANCE), "no tolerance: {units}");
    Ok(Some(units))
}

/// The cells of the zone that have a height, one at least.
fn cells_of(alloc: Global, texts: &Texts) -> Result<Cells>
    ensures { IfOk result (λ cells. 0 < length cells.cells) }
{
    let zone = zone_of(alloc, texts.zone.as_str())?;
    let heights = heights_of(alloc, texts.heights.as_str())?;
    let cells = cells_in(alloc, &zone, &heights)?;
    ensure!(0 < cells.len(), "no cell");
    Ok(cells)
}

fn cells_in(alloc: Global, zone: &Zone, heights: &Heights) -> Result<Cells> {
    match zone_cells(alloc, zone, heights) {
        Ok(cells) => Ok(cells),
        Err(fault) => bail!("cells: {fault:?}"),
    }
}

pub fn zone_of(alloc: Global, text: &str) -> Result<Zone> {
    match read_zone(alloc, text.as_bytes()) {
        Ok(zone) => Ok(zone),
        Err(fault) => bail!("zone: {fault:?}"),
    }
}

pub fn heights_of(alloc: Global, text: &str) -> Result<Heights> {
    match read_heights(alloc, text.as_bytes()) {
        Ok(heights) => Ok(heights),
        Err(fault) => bail!("heights: {fault:?}"),
    }
}

pub fn grids_of(alloc: Global, text: &str) -> Result<Grids> {
    match read_grids(alloc, text.as_bytes()) {
        Ok(grids) => Ok(grids),
        Err(fault) => bail!("designs: {fault:?}"),
    }
}
