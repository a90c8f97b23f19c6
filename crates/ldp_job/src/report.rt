ghost use Rattle.std.specs.Prelude.{◌≡◌, ◌≤◌, Ok, Err, MatchResult};
ghost use Rattle.ldp_job.specs.Reading.{report_at};

use crate::fault::JobFault;
use crate::line::{at_line, cells_line, kind_line, nodes_line, ppm_line, trimmed_line};
use ldp_design::{AxisName, GREATEST_AZIMUTH, Kind, LEAST_AZIMUTH};
use ldp_quantity::{
    EASTMOST_LONGITUDE, GREATEST_SCALE, HIGHEST_LATITUDE, LEAST_SCALE, LOWEST_LATITUDE,
    WESTMOST_LONGITUDE,
};
use ldp_spelling::Lines;

/// What a user reads of a design and of its worst cell.
#[derive(Clone, Copy, Debug, PartialEq, Eq)]
pub struct Report {
    pub kind: Kind,
    /// In 10^-12 degrees, as are the longitude and the azimuth.
    pub lat: i128,
    pub lon: i128,
    /// The azimuth of the central line, or the second standard parallel.
    pub azimuth: i128,
    /// In 10^-15.
    pub scale: i128,
    /// The worst absolute distortion, in 10^-15.
    pub ppm: i128,
    /// The row and the column of the first cell that has it.
    pub row: u32,
    pub col: u32,
    /// How many cells the zone has, and how many of its places have no height.
    pub cells: u32,
    pub missing: u32,
    /// How many nodes the forest has.
    pub nodes: u32,
}

/// The nine lines of a report, the first of which has this number.
#[tactic(auto, unfolding(crate::specs::Reading::report_at))]
pub fn report_lines(lines: &mut Lines<'_>, number: u32) -> Result<Report, JobFault>
    requires { number ≤ 100 }
    ensures { MatchResult result (λ report. report_at number lines.old ≡ Ok (report, lines.new))
        (λ fault. report_at number lines.old ≡ Err fault) }
{
    let kind = kind_line(lines, number)?;
    let lat = trimmed_line(
        lines,
        number + 1,
        AxisName::Lat,
        12,
        LOWEST_LATITUDE,
        HIGHEST_LATITUDE,
    )?;
    let lon = trimmed_line(
        lines,
        number + 2,
        AxisName::Lon,
        12,
        WESTMOST_LONGITUDE,
        EASTMOST_LONGITUDE,
    )?;
    let azimuth = trimmed_line(
        lines,
        number + 3,
        AxisName::Azimuth,
        12,
        LEAST_AZIMUTH,
        GREATEST_AZIMUTH,
    )?;
    let scale = trimmed_line(
        lines,
        number + 4,
        AxisName::Scale,
        15,
        LEAST_SCALE,
        GREATEST_SCALE,
    )?;
    let ppm = ppm_line(lines, number + 5)?;
    let (row, col) = at_line(lines, number + 6)?;
    let (cells, missing) = cells_line(lines, number + 7)?;
    let nodes = nodes_line(lines, number + 8)?;
    Ok(Report {
        kind,
        lat,
        lon,
        azimuth,
        scale,
        ppm,
        row,
        col,
        cells,
        missing,
        nodes,
    })
}
