use crate::ask::{heights_of, zone_of};
use crate::texts::Texts;
use anyhow::Result;
use ldp_cells::{Cells, CellsFault, area_cells, zone_cells};

/// Prints the cells of the zone, a line for each, and how many places have no height.
pub fn print_cells(rt: &(impl Print + AllocGlobal), texts: &Texts) -> Result<()> {
    let zone = zone_of(rt.alloc(), texts.zone.as_str())?;
    let heights = heights_of(rt.alloc(), texts.heights.as_str())?;
    put(rt, &zone_cells(rt.alloc(), &zone, &heights))
}

/// Prints the same of the whole area.
pub fn print_area(rt: &(impl Print + AllocGlobal), texts: &Texts) -> Result<()> {
    let heights = heights_of(rt.alloc(), texts.heights.as_str())?;
    put(rt, &area_cells(rt.alloc(), &heights))
}

fn put(rt: &impl Print, found: &Result<Cells, CellsFault>) -> Result<()> {
    match found {
        Ok(cells) => put_cells(rt, cells),
        Err(fault) => {
            println!(rt; "{fault:?}")?;
            Ok(())
        }
    }
}

fn put_cells(rt: &impl Print, cells: &Cells) -> Result<()> {
    for index in 0..cells.len() {
        let cell = cells.get(index);
        println!(rt;
            "row {}, column {}: {} {}, {} mm",
            cell.row, cell.col, cell.x, cell.y, cell.mm
        )?;
    }
    println!(rt; "missing {}", cells.missing())?;
    Ok(())
}
