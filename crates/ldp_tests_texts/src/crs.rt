use crate::escape::answer_bytes;
use crate::piece;
use crate::show::{answer, named};
use anyhow::{Context, Result, bail, ensure};
use ldp_design::{Design, admits};
use ldp_grids::read_grids;
use ldp_wkt2::{crs_of, read_crs, write_crs};

/// The system of a line, and whether its line is the text itself; or the first fault.
pub fn read(rt: &(impl Print + AllocGlobal), text: &[u8]) -> Result<()> {
    match read_crs(text) {
        Ok(crs) => {
            answer(rt, &crs)?;
            let written = write_crs(rt.alloc(), &crs)?;
            named(rt, "the same", &(written.bytes() == text))
        }
        Err(fault) => answer(rt, &fault),
    }
}

/// The same of the line with a piece in place of so many bytes: `line PLACE COUNT PIECE`.
pub fn changed(rt: &(impl Print + AllocGlobal), rest: &str, text: &[u8]) -> Result<()> {
    let text = piece::changed(rt.alloc(), rest, text)?;
    read(rt, &text)
}

/// The line of a design of these families: `system FAMILY LAT LON AZIMUTH SCALE`.
pub fn line(rt: &(impl Print + AllocGlobal), rest: &str, text: &[u8]) -> Result<()> {
    let design = design_of(rest)?;
    let Ok(grids) = read_grids(rt.alloc(), text) else {
        bail!("no families");
    };
    ensure!(admits(&grids, &design), "no design");
    let written = write_crs(rt.alloc(), &crs_of(&grids, &design))?;
    answer_bytes(rt, written.bytes())
}

fn design_of(words: &str) -> Result<Design> {
    let (family, rest) = words.split_once(' ').context("a family")?;
    let (lat, rest) = rest.split_once(' ').context("a latitude")?;
    let (lon, rest) = rest.split_once(' ').context("a longitude")?;
    let (azimuth, scale) = rest.split_once(' ').context("an azimuth")?;
    Ok(Design {
        family: family.parse()?,
        lat: lat.parse()?,
        lon: lon.parse()?,
        azimuth: azimuth.parse()?,
        scale: scale.parse()?,
    })
}
