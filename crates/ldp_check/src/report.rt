ghost use Rattle.std.specs.Prelude.{◌≡◌, ◌<◌, Some, IfSome, length, not, position};
ghost use Rattle.ldp_design.specs.Designs.{IsAdmitted};
ghost use Rattle.ldp_job.specs.Values.{IsWorst, IsReport};
ghost use Rattle.ldp_check.specs.Reports.{report_of, differing_line, same_lines, same_place};
ghost use Rattle.ldp_check.specs.Reports.{same_cells, is_kind};

use crate::number::is_equal;
use ldp_cells::Cells;
use ldp_design::{AxisName, Design, Grids, Kind};
use ldp_job::Report;

/// What a user reads of a design, whose worst absolute distortion, in units of 10^-15, is at this
/// cell, and of the forest that shows it, which has so many nodes.
pub fn report_of(
    grids: &Grids,
    cells: &Cells,
    d: &Design,
    worst: i128,
    cell: u32,
    nodes: u32,
) -> Report
    requires admitted { IsAdmitted grids.now.families d.now }
    requires cell { cell < length cells.now.cells }
    ensures value { report_of grids.now.families cells.now d.now worst cell nodes ≡ Some result }
    ensures range { IsWorst worst → IsReport result }
{
    let family = grids.family(d.family);
    let at = cells.get(cell);
    Report {
        kind: family.kind,
        lat: family.value(AxisName::Lat, d.lat),
        lon: family.value(AxisName::Lon, d.lon),
        azimuth: family.value(AxisName::Azimuth, d.azimuth),
        scale: family.value(AxisName::Scale, d.scale),
        ppm: worst,
        row: at.row,
        col: at.col,
        cells: cells.len(),
        missing: cells.missing(),
        nodes,
    }
}

/// The first line of the printed report that differs, from 0.
pub(crate) fn differing_line(printed: &Report, actual: &Report) -> Option<u32>
    ensures value { result ≡ differing_line printed.now actual.now }
    ensures few { IfSome result (λ line. line < 9) }
{
    match first_false(&same_lines(printed, actual)) {
        Some(line) => Some(line as u32),
        None => None,
    }
}

fn first_false(tests: &[bool]) -> Option<usize>
    ensures value { result ≡ position not tests.now }
    ensures within { IfSome result (λ place. place < length tests.now) }
{
    tests.iter().position(|test| !*test)
}

fn same_lines(a: &Report, b: &Report) -> [bool; 9]
    ensures { result ≡ same_lines a.now b.now }
{
    [
        is_kind(a.kind, b.kind),
        is_equal(&a.lat, &b.lat),
        is_equal(&a.lon, &b.lon),
        is_equal(&a.azimuth, &b.azimuth),
        is_equal(&a.scale, &b.scale),
        is_equal(&a.ppm, &b.ppm),
        same_place(a, b),
        same_cells(a, b),
        a.nodes == b.nodes,
    ]
}

fn same_place(a: &Report, b: &Report) -> bool
    ensures { result ≡ same_place a.now b.now }
{
    a.row == b.row && a.col == b.col
}

fn same_cells(a: &Report, b: &Report) -> bool
    ensures { result ≡ same_cells a.now b.now }
{
    a.cells == b.cells && a.missing == b.missing
}

fn is_kind(a: Kind, b: Kind) -> bool
    ensures { result ≡ is_kind a b }
{
    a == b
}
