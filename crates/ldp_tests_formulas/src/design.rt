ghost use Rattle.ldp_distortion.specs.Inputs.{AreNumbers};

use crate::alike::alike;
use crate::area::Area;
use crate::kind::kind_of;
use crate::say::{say, say_none, say_some, say_within};
use crate::words::{halves, numbers, split};
use anyhow::{Result, bail, ensure};
use ldp_distortion::{Inputs, Worst};
use ldp_num::{Bench, Fix, MOST_STEPS, radians};
use std::alloc::Global;

pub fn answer(rt: &(impl Print + AllocGlobal), grid: &[u8], call: &str, rest: &str) -> Result<()> {
    let (name, rest) = split(rest);
    let area = Area::new(rt.alloc(), kind_of(name)?, grid)?;
    match call {
        "lengths" => lengths(rt, &area),
        "distortions" => distortions(rt, &area, design(rest)?),
        "near" => near(rt, &area, rest),
        "within" => within(rt, &area, rest),
        "alike" => alike(rt, &area, rest),
        _ => bail!("no call of designs"),
    }
}

/// The inputs of a design list from latitude, longitude, azimuth and scale factor.
pub fn design(text: &str) -> Result<[Fix; 4]> {
    let [latitude, longitude, azimuth, scale] = numbers::<4>(text)?;
    Ok([angle(latitude)?, angle(longitude)?, angle(azimuth)?, scale])
}

/// An angle of tenths of a degree in radians.
pub fn angle(tenths: Fix) -> Result<Fix> {
    ensure!(
        -3600 <= tenths.n && tenths.n <= 3600,
        "an angle is at most a turn"
    );
    Ok(Fix {
        n: radians(tenths.n * 100_000_000_000),
    })
}

pub fn inputs(design: [Fix; 4]) -> Inputs
    ensures { AreNumbers result }
{
    let [lat, lon, azimuth, scale] = design;
    Inputs {
        lat: lat.n,
        lon: lon.n,
        azimuth: azimuth.n,
        scale: scale.n,
    }
}

/// The numbers of steps of the cell list, the design list and the joint list, and of the results
/// that the cell list gives.
fn lengths(rt: &impl Print, area: &Area) -> Result<()> {
    ensure!(area.count > 0, "a cell is wanted");
    let lists = area.prepared.lists();
    say(rt, lists.cell.steps().len() as i128)?;
    say(rt, lists.design.steps().len() as i128)?;
    say(rt, lists.joint.steps().len() as i128)?;
    match area.prepared.cell_outs(0) {
        Some(results) => say(rt, results.len() as i128),
        None => say_none(rt),
    }
}

/// The worst of a design over the cells, and its distortion at each.
fn distortions(rt: &(impl Print + AllocGlobal), area: &Area, design: [Fix; 4]) -> Result<()> {
    ensure!(area.count > 0, "a cell is wanted");
    let _lists = area.prepared.lists();
    let mut bench: Bench<Fix> = Bench::with_room(rt.alloc(), MOST_STEPS)?;
    match area.prepared.worst(&mut bench, inputs(design)) {
        Worst::Is { value, cell } => print!(rt; " worst {value} at {cell},")?,
        Worst::Unusable { cell } => print!(rt; " unusable at {cell},")?,
    }
    for cell in 0..area.count {
        ensure!(bench.room() == MOST_STEPS, "the room of a bench stays");
        say_some(rt, area.prepared.delta(&mut bench, inputs(design), cell))?;
    }
    Ok(())
}

/// The distortion at the one cell.
fn distortion(alloc: Global, area: &Area, text: &str) -> Result<Option<i128>> {
    ensure!(area.count == 1, "one cell is wanted");
    let _lists = area.prepared.lists();
    let design = design(text)?;
    let mut bench: Bench<Fix> = Bench::with_room(alloc, MOST_STEPS)?;
    Ok(area.prepared.delta(&mut bench, inputs(design), 0))
}

/// Says that the distortion is within so many units of a number.
fn near(rt: &(impl Print + AllocGlobal), area: &Area, rest: &str) -> Result<()> {
    let (text, bounds) = halves(rest)?;
    let [wanted, distance] = numbers::<2>(bounds)?;
    match distortion(rt.alloc(), area, text)? {
        Some(value) => say_within(rt, value, wanted.n - distance.n, wanted.n + distance.n),
        None => say_none(rt),
    }
}

/// Says that the distortion is between two numbers.
fn within(rt: &(impl Print + AllocGlobal), area: &Area, rest: &str) -> Result<()> {
    let (text, bounds) = halves(rest)?;
    let [low, high] = numbers::<2>(bounds)?;
    match distortion(rt.alloc(), area, text)? {
        Some(value) => say_within(rt, value, low.n, high.n),
        None => say_none(rt),
    }
}
